//! The table of proxies, which contracts see as rows in rising order of their pairs.
ghost use Rattle.std.specs.Prelude.{◌≡◌, ℕ, ◌<◌, ◌-◌, ◌^◌, true, IfOk, IfNone, IfSome, OnOk, OnErr, Some, is_none};
ghost use Rattle.table_model.specs.Pair.{Pair, pair};
ghost use Rattle.table_model.specs.Proxies.{no_proxies, proxy, number_at_arrival, arrived, freed, HasNumber};
ghost use Rattle.proxy_table.specs.Releases.{pair_of};

use crate::{ProxyId, Release};
use indexmap::IndexMap;
use pair_map::PairMap;
use std::alloc::Global;
use std::marker::Model;
use uno_base::NoMemory;
use uno_entities::{Name, Text};

/// The proxies of an endpoint.
#[derive(Drop)]
pub struct ProxyTable {
    alloc: Global,
    numbers: PairMap<u64>,
    releases: IndexMap<u64, Release>,
    made: u64,
}

impl Model for ProxyTable {
    ghost use Rattle.table_model.specs.Proxies.{Proxies};
    ghost use Rattle.proxy_table.specs.Releases.{Agrees};

    ghost Value = { Proxies };

    ghost view = { λ t. record { made = t.made; rows = t.numbers } };

    ghost invariant = { λ t. Agrees t.releases (record { made = t.made; rows = t.numbers }) };
}

impl ProxyTable {
    /// A table that has given no number.
    pub fn new(alloc: Global) -> ProxyTable
        ensures { result ≡ no_proxies }
    {
        ProxyTable {
            alloc,
            numbers: PairMap::new(alloc),
            releases: IndexMap::new(alloc),
            made: 0,
        }
    }

    /// The number of an arriving pair's proxy, and whether it is new.
    pub fn arrive(&mut self, oid: &Text, face: &Name) -> Result<(ProxyId, bool), NoMemory>
        requires { self.old.made < 2 ^ 64 - 1 }
        ensures number { IfOk result (λ r. r.0 ≡ number_at_arrival (pair oid.now face.now) self.old) }
        ensures fresh { IfOk result (λ r. r.1 ≡ is_none (proxy (pair oid.now face.now) self.old)) }
        ensures arrived { OnOk result (self.new ≡ arrived (pair oid.now face.now) self.old) }
        ensures kept { OnErr result (self.new ≡ self.old) }
    {
        if let Some(proxy) = self.find(oid, face) {
            return Ok((proxy, false));
        }
        let release = ready(oid, face)?;
        self.releases.reserve(1)?;
        let number = self.made;
        self.numbers.insert(oid, face, number)?;
        self.releases.insert(number, release).ok();
        self.made = number + 1;
        Ok((ProxyId { number }, true))
    }

    /// Frees a proxy.
    pub fn free(&mut self, proxy: ProxyId)
        requires { (p : Pair) × HasNumber p proxy self.old }
        ensures { (p : Pair) → HasNumber p proxy self.old → self.new ≡ freed p self.old }
    {
        self.take_release(proxy);
    }

    /// Frees a proxy, and gives its release.
    pub fn take_release(&mut self, proxy: ProxyId) -> Release
        requires { (p : Pair) × HasNumber p proxy self.old }
        ensures release { (p : Pair) → HasNumber p proxy self.old → pair_of result ≡ p }
        ensures freed { (p : Pair) → HasNumber p proxy self.old → self.new ≡ freed p self.old }
    {
        let Some(release) = self.releases.swap_remove(&proxy.number) else {
            unreachable!()
        };
        self.numbers.remove(&release.oid, &release.face);
        release
    }

    /// The number of a pair's proxy.
    pub fn find(&self, oid: &Text, face: &Name) -> Option<ProxyId>
        ensures number { result ≡ proxy (pair oid.now face.now) self.now }
        ensures given { IfSome result (λ n. n < self.now.made) }
    {
        let number = *self.numbers.get(oid, face)?;
        Some(ProxyId { number })
    }

    /// How many numbers were given.
    pub fn made(&self) -> u64
        ensures { result ≡ self.now.made }
    {
        self.made
    }

    /// The pair of a proxy's number.
    pub fn pair(&self, proxy: ProxyId) -> Option<(&Text, &Name)>
        ensures found { IfSome result (λ r. HasNumber (pair r.0.now r.1.now) proxy self.now) }
        ensures none { IfNone result ((p : Pair) → ¬ (HasNumber p proxy self.now)) }
    {
        let release = self.releases.get(&proxy.number)?;
        Some((&release.oid, &release.face))
    }
}

/// The release of a pair.
fn ready(oid: &Text, face: &Name) -> Result<Release, NoMemory>
    ensures { IfOk result (λ release. pair_of release ≡ pair oid.now face.now) }
{
    let oid = oid.copy()?;
    let face = face.copy()?;
    Ok(Release { oid, face })
}
