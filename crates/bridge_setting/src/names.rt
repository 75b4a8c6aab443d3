//! Names that an end gives: its tag, `;`, and a number.
ghost use Rattle.std.specs.Prelude.{◌≡◌, ◌++◌, ◌↔◌, true, IfOk, IfSome, OnOk, not, nat_lt, ◌&&◌, length, take, string_bytes, codes, slice_get, option_map};
ghost use Rattle.std.specs.Fmt.{decimal};
ghost use Rattle.std.specs.Option.{is_some};
ghost use Rattle.std.specs.Str.{bytes_eq};
ghost use Rattle.bridge_setting.specs.Naming.{name_of, AreNames};

use arrayvec::ArrayString;
use itoa::Buffer;
use std::alloc::Global;
use std::marker::Model;
use uno_base::NoMemory;
use uno_types::{Tag, Text, Tid};

/// The names of the thread of releases, of the threads of roots, and of the first objects, beside the tag.
#[derive(Drop)]
pub struct Names {
    tag: Tag,
    prefix: Text,
    release: Tid,
    roots: Vec<Tid>,
    objects: Vec<Text>,
}

impl Model for Names {
    ghost use Rattle.std.specs.Prelude.{length, map};
    ghost use Rattle.bridge_setting.specs.Naming.{Named, AreOf};

    ghost Value = { Named };

    ghost view = { λ n. record { tag = n.tag; roots = length n.roots.items } };

    ghost invariant = { λ n. AreOf (record { tag = n.tag; roots = length n.roots.items }) n.prefix n.release n.roots.items n.objects.items };
}

impl Names {
    /// The names of so many roots, and of the objects below this number.
    pub fn new(alloc: Global, tag: Tag, roots: usize, objects: u64) -> Result<Names, NoMemory>
        ensures { IfOk result (λ names. (names.tag ≡ tag) × (names.roots ≡ roots)) }
    {
        let prefix = prefix_of(alloc, &tag)?;
        let release = thread_named(alloc, &tag, 0)?;
        let objects = objects_named(alloc, &tag, objects)?;
        let roots = threads_named(alloc, &tag, roots)?;
        Ok(Names {
            tag,
            prefix,
            release,
            roots,
            objects,
        })
    }

    pub fn tag(&self) -> &Tag
        ensures { result.now ≡ self.now.tag }
    {
        &self.tag
    }

    /// The thread on which releases are sent.
    pub fn release(&self) -> &Tid
        ensures { result.now ≡ name_of self.now.tag 0 }
    {
        &self.release
    }

    /// The thread of a root, which are numbered from 1.
    pub fn root(&self, root: u32) -> Option<&Tid>
        ensures name { IfSome result (λ tid. tid.now ≡ name_of self.now.tag root) }
        ensures there { is_some result ≡ (nat_lt 0 root && not (nat_lt self.now.roots root)) }
    {
        if root == 0 {
            return None;
        }
        tid_at(&self.roots, root as usize - 1)
    }

    /// The identity of the object of a number.
    pub fn object(&self, alloc: Global, number: u32) -> Result<Text, NoMemory>
        ensures { IfOk result (λ oid. oid ≡ name_of self.now.tag number) }
    {
        match self.first_object(number) {
            Some(oid) => oid.copy(),
            None => object_named(alloc, &self.tag, number as u64),
        }
    }

    /// Whether a name is the identity of the object of a number.
    pub fn is_object(&self, number: u32, name: &str) -> bool
        ensures { result ≡ true ↔ name.now ≡ name_of self.now.tag number }
    {
        if let Some(oid) = self.first_object(number) {
            return is_text(oid, name);
        }
        match name.strip_prefix(self.prefix.as_str()) {
            Some(digits) => is_printed(number, digits),
            None => false,
        }
    }

    /// The identity of one of the first objects.
    fn first_object(&self, number: u32) -> Option<&Text>
        ensures { IfSome result (λ oid. oid.now ≡ name_of self.now.tag number) }
    {
        text_at(&self.objects, number as usize)
    }

    /// Whether this end gave a name.
    pub fn is_own(&self, name: &[u8]) -> bool
        ensures { result ≡ bytes_eq (take (length (self.now.tag ++ codes ";")) name.now) (self.now.tag ++ codes ";") }
    {
        name.starts_with(self.prefix.as_str().as_bytes())
    }
}

fn tid_at(tids: &[Tid], place: usize) -> Option<&Tid>
    ensures { option_map (λ tid. tid.now) result ≡ slice_get tids.now place }
{
    tids.get(place)
}

fn text_at(texts: &[Text], place: usize) -> Option<&Text>
    ensures { option_map (λ text. text.now) result ≡ slice_get texts.now place }
{
    texts.get(place)
}

/// The tag and `;`.
fn prefix_of(alloc: Global, tag: &Tag) -> Result<Text, NoMemory>
    ensures { IfOk result (λ prefix. prefix ≡ tag.now ++ codes ";") }
{
    let mut prefix = String::from_str(alloc, tag.as_str())?;
    prefix.push_str(SEPARATOR)?;
    Text::from_string(prefix)
}

/// Whether a number is printed so.
fn is_printed(number: u32, digits: &str) -> bool
    ensures { result ≡ true ↔ digits.now ≡ decimal number }
{
    let mut buffer = Buffer::new();
    buffer.format(number) == digits
}

/// Whether a name is this text.
fn is_text(text: &Text, name: &str) -> bool
    ensures { result ≡ true ↔ name.now ≡ text.now }
{
    text.as_str() == name
}

/// The most bytes of a name: those of a tag, `;`, and a number.
const MOST_NAME: usize = 53;

const SEPARATOR: &str = ";";

/// The name of a number.
fn named(tag: &Tag, number: u64) -> ArrayString<MOST_NAME>
    ensures { result.bytes ≡ name_of tag.now number }
{
    let mut buffer = Buffer::new();
    let mut name = ArrayString::new();
    name.push_str(tag.as_str());
    name.push_str(SEPARATOR);
    name.push_str(buffer.format(number));
    name
}

/// The thread of a number.
fn thread_named(alloc: Global, tag: &Tag, number: u64) -> Result<Tid, NoMemory>
    ensures { IfOk result (λ tid. tid ≡ name_of tag.now number) }
{
    Tid::of(alloc, named(tag, number).as_str().as_bytes())
}

/// The threads of so many roots, in their order.
fn threads_named(alloc: Global, tag: &Tag, count: usize) -> Result<Vec<Tid>, NoMemory>
    ensures { IfOk result (λ tids. AreNames tag.now 1 tids.items × (length tids.items ≡ count)) }
{
    let mut tids = Vec::new(alloc);
    for place in 0..count {
        let tid = thread_named(alloc, tag, place as u64 + 1)?;
        tids.push(tid)?;
    }
    Ok(tids)
}

/// The identity of the object of a number.
fn object_named(alloc: Global, tag: &Tag, number: u64) -> Result<Text, NoMemory>
    ensures { IfOk result (λ oid. oid ≡ name_of tag.now number) }
{
    Text::of(alloc, named(tag, number).as_str())
}

/// The identities of the objects below a number, in their order; the first is of the number 0, which no object has.
fn objects_named(alloc: Global, tag: &Tag, count: u64) -> Result<Vec<Text>, NoMemory>
    ensures { IfOk result (λ oids. AreNames tag.now 0 oids.items) }
{
    let mut oids = Vec::new(alloc);
    for number in 0..count {
        let oid = object_named(alloc, tag, number)?;
        oids.push(oid)?;
    }
    Ok(oids)
}
