//! The faces of one OID, each with its value: a lone one stands here itself, and several in a map.
ghost use Rattle.std.specs.Prelude.{◌≡◌, ◌↔◌, ◌+◌, ◌≤◌, ◌<◌, [], ◌∷◌, None, Some, IsSome, IsTrue, IsOk, IfOk, OnOk, OnErr, length, option_copied, option_map, slice_get};
ghost use Rattle.indexmap.specs.IndexMap.{spare};
ghost use Rattle.std.specs.List.{IsDistinct};
ghost use Rattle.std.specs.Map.{keys_of};
ghost use Rattle.std.specs.Str.{bytes_eq};
ghost use Rattle.pair_map.specs.Faces.{value_of, ChangesFace};

use indexmap::IndexMap;
use std::alloc::Global;
use std::marker::Model;
use std::mem;
use uno_base::NoMemory;
use uno_entities::Name;

/// A value for each of some faces.
#[derive(Drop)]
pub struct Faces<V> {
    layout: Layout<V>,
}

/// A second face makes the rows a map, and they stay one.
#[derive(Drop)]
enum Layout<V> {
    Empty,
    Lone(Name, V),
    Several(Box<IndexMap<Name, V>>),
}

impl<V> Model for Faces<V> {
    ghost use Rattle.pair_map.specs.Faces.{Rows};
    ghost use Rattle.pair_map.specs.Layout.{rows_of};

    ghost Value = { Rows V };

    ghost view = { λ f. rows_of f.layout };
}

impl<V> Faces<V> {
    /// One face.
    pub(crate) fn lone(face: Name, value: V) -> Faces<V>
        ensures { result ≡ (face, value) ∷ [] }
    {
        Faces {
            layout: Layout::Lone(face, value),
        }
    }

    /// The value of a face.
    pub fn get(&self, face: &Name) -> Option<&V>
        ensures { option_copied result ≡ value_of face.now self.now }
    {
        match &self.layout {
            Layout::Empty => None,
            Layout::Lone(only, value) => { if face == only { Some(value) } else { None } }
            Layout::Several(faces) => faces.get(face),
        }
    }

    /// Whether no face is there.
    pub fn is_empty(&self) -> bool
        ensures { IsTrue result ↔ (length self.now ≡ 0) }
    {
        match &self.layout {
            Layout::Empty => true,
            Layout::Lone(_, _) => false,
            Layout::Several(faces) => faces.is_empty(),
        }
    }

    /// How many faces are there, no two of one name.
    pub fn len(&self) -> usize
        ensures number { result ≡ length self.now }
        ensures distinct { IsDistinct bytes_eq (keys_of self.now) }
    {
        match &self.layout {
            Layout::Empty => 0,
            Layout::Lone(_, _) => 1,
            Layout::Several(faces) => faces.len(),
        }
    }

    /// The face at a place.
    pub fn face_at(&self, place: usize) -> Option<&str>
        ensures { option_copied result ≡ option_map (λ row. row.0) (slice_get self.now place) }
    {
        match &self.layout {
            Layout::Empty => None,
            Layout::Lone(only, _) => {
                if place == 0 {
                    Some(only.as_str())
                } else {
                    None
                }
            }
            Layout::Several(faces) => {
                let (face, _) = faces.get_index(place)?;
                Some(face.as_str())
            }
        }
    }

    /// Puts a value in the place of that of a face, which is given back.
    pub(crate) fn replace(&mut self, face: &Name, value: V) -> V
        requires { IsSome (value_of face.now self.old) }
        ensures was { Some result ≡ value_of face.now self.old }
        ensures put { ChangesFace face.now (Some value) self.old self.new }
    {
        match &mut self.layout {
            Layout::Empty => unreachable!(),
            Layout::Lone(_, place) => mem::replace(place, value),
            Layout::Several(faces) => replace(faces, face, value),
        }
    }
}

impl<V: Drop> Faces<V> {
    /// Puts a value at a face.
    pub(crate) fn insert(&mut self, alloc: Global, face: Name, value: V) -> Result<(), NoMemory>
        ensures put { OnOk result (ChangesFace face (Some value) self.old self.new) }
        ensures kept { OnErr result (self.new ≡ self.old) }
    {
        if let Layout::Several(faces) = &mut self.layout {
            return insert(faces, face, value);
        }
        if let Layout::Empty = &self.layout {
            self.layout = Layout::Lone(face, value);
            return Ok(());
        }
        let mut faces = room_for_two(alloc)?;
        let Layout::Lone(first, kept) = mem::replace(&mut self.layout, Layout::Empty) else {
            unreachable!()
        };
        insert(&mut faces, first, kept).ok();
        insert(&mut faces, face, value).ok();
        self.layout = Layout::Several(faces);
        Ok(())
    }

    /// Takes out the value of a face.
    pub(crate) fn remove(&mut self, face: &Name) -> V
        requires { IsSome (value_of face.now self.old) }
        ensures was { Some result ≡ value_of face.now self.old }
        ensures without { ChangesFace face.now None self.old self.new }
    {
        if let Layout::Several(faces) = &mut self.layout {
            return remove(faces, face);
        }
        let Layout::Lone(_, value) = mem::replace(&mut self.layout, Layout::Empty) else {
            unreachable!()
        };
        value
    }
}

/// A map that is empty and has room for two faces.
fn room_for_two<V: Drop>(alloc: Global) -> Result<Box<IndexMap<Name, V>>, NoMemory>
    ensures empty { IfOk result (λ faces. faces.value.entries ≡ []) }
    ensures room { IfOk result (λ faces. 2 ≤ spare faces.value) }
{
    let mut faces = IndexMap::new(alloc);
    faces.reserve(2)?;
    Ok(Box::new(alloc, faces)?)
}

/// Puts a value at a face, for which there may be room.
fn insert<V: Drop>(faces: &mut IndexMap<Name, V>, face: Name, value: V) -> Result<(), NoMemory>
    ensures put { OnOk result (ChangesFace face (Some value) faces.old.entries faces.new.entries) }
    ensures kept { OnErr result (faces.new.entries ≡ faces.old.entries) }
    ensures fits { 0 < spare faces.old → IsOk result }
    ensures room { spare faces.old ≤ spare faces.new + 1 }
{
    faces.insert(face, value)?;
    Ok(())
}

/// Puts a value in the place of that of a face, which is given back.
fn replace<V>(faces: &mut IndexMap<Name, V>, face: &Name, value: V) -> V
    requires { IsSome (value_of face.now faces.old.entries) }
    ensures was { Some result ≡ value_of face.now faces.old.entries }
    ensures put { ChangesFace face.now (Some value) faces.old.entries faces.new.entries }
{
    let Some(place) = faces.get_mut(face) else {
        unreachable!()
    };
    mem::replace(place, value)
}

/// Takes out the value of a face.
fn remove<V>(faces: &mut IndexMap<Name, V>, face: &Name) -> V
    requires { IsSome (value_of face.now faces.old.entries) }
    ensures was { Some result ≡ value_of face.now faces.old.entries }
    ensures without { ChangesFace face.now None faces.old.entries faces.new.entries }
{
    let Some(value) = faces.swap_remove(face) else {
        unreachable!()
    };
    value
}
