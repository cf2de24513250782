//! A router that packets reach, as it is kept.

ghost use Rattle.std.specs.Prelude.{◌≡◌, ◌<◌, ◌+◌, ◌^◌, ◌∷◌, ◌++◌, [], List, IfOk, OnOk, length};
ghost use Rattle.std.specs.List.{AllByRecursion};
ghost use Rattle.ospf_lsa.specs.{declared.lsa.Lsa.Lsa, AreaLsas.is_area_lsa};
ghost use Rattle.lsdb.specs.Installing.{IsBehind, IsKept};
ghost use Rattle.flood.specs.steps.Numbers.{lsa_in, lsas_by, router_in, AreNumbers, IsStored};
ghost use Rattle.flood.specs.Receiving.{after_all, after_one, is_news, new_router, news, topology};

use crate::store::Store;
use lsdb::{Change, FileKey};
use mrt_graph::NoMemory;
use ospf_lsa::Lsa;
use std::alloc::Global;

/// A router's database, and how many LSAs of types 1 and 2 have arrived for it.
pub struct Receiver {
    pub store: Store,
    pub arrivals: u32,
}

impl Drop for Receiver {
    fn drop(self) {
        let Self {
            store: _,
            arrivals: _,
        } = self;
    }
}

impl Receiver {
    /// A router that no packet of the file that gives this key has reached.
    pub fn new(alloc: Global, file: FileKey) -> Receiver
        ensures router { (lsas : List Lsa) → router_in lsas result ≡ new_router }
        ensures stored { (lsas : List Lsa) → IsStored lsas result.store }
    {
        Receiver {
            store: Store::keyed(alloc, file),
            arrivals: 0,
        }
    }

    /// Installs the LSAs of types 1 and 2 one after another, and gives those that were new.
    pub fn receive(
        &mut self,
        alloc: Global,
        lsas: &[Lsa],
        numbers: &[u32],
    ) -> Result<Vec<u32>, NoMemory>
        requires stored { IsStored lsas.now self.old.store }
        requires numbers { AreNumbers lsas.now numbers.now }
        requires kept { AllByRecursion IsKept (topology (lsas_by lsas.now numbers.now)) }
        requires behind { IsBehind self.old.store.greatest self.old.arrivals }
        requires room { self.old.arrivals + length numbers.now < 2 ^ 32 }
        ensures news { IfOk result (λ new. lsas_by lsas.now new.items
            ≡ news (router_in lsas.now self.old) (topology (lsas_by lsas.now numbers.now))) }
        ensures numbers { IfOk result (λ new. AreNumbers lsas.now new.items) }
        ensures after { OnOk result (router_in lsas.now self.new
            ≡ after_all (router_in lsas.now self.old) (topology (lsas_by lsas.now numbers.now))) }
        ensures stored { OnOk result (IsStored lsas.now self.new.store) }
    {
        let mut new = Vec::new(alloc);
        for number in numbers {
            self.meet(lsas, *number, &mut new)?;
        }
        Ok(new)
    }

    /// Installs an LSA if it is of type 1 or 2, and notes it if it is new.
    fn meet(&mut self, lsas: &[Lsa], number: u32, new: &mut Vec<u32>) -> Result<(), NoMemory>
        requires stored { IsStored lsas.now self.old.store }
        requires number { number < length lsas.now }
        requires kept { AllByRecursion IsKept (topology (lsa_in lsas.now number ∷ [])) }
        requires behind { IsBehind self.old.store.greatest self.old.arrivals }
        requires room { self.old.arrivals + 1 < 2 ^ 32 }
        ensures news { OnOk result (lsas_by lsas.now new.new.items
            ≡ lsas_by lsas.now new.old.items
            ++ news (router_in lsas.now self.old) (topology (lsa_in lsas.now number ∷ []))) }
        ensures numbers { AreNumbers lsas.now new.old.items → OnOk result (AreNumbers lsas.now new.new.items) }
        ensures after { OnOk result (router_in lsas.now self.new
            ≡ after_all (router_in lsas.now self.old) (topology (lsa_in lsas.now number ∷ []))) }
        ensures stored { OnOk result (IsStored lsas.now self.new.store) }
    {
        if !is_area_lsa(lsas, number) {
            return Ok(());
        }
        let is_news = self.arrive(lsas, number)?;
        if !is_news {
            return Ok(());
        }
        new.push(number)?;
        Ok(())
    }

    /// Installs one LSA with the next arrival number as its place, and tells whether it was new.
    fn arrive(&mut self, lsas: &[Lsa], number: u32) -> Result<bool, NoMemory>
        requires stored { IsStored lsas.now self.old.store }
        requires number { number < length lsas.now }
        requires kept { IsKept (lsa_in lsas.now number) }
        requires behind { IsBehind self.old.store.greatest self.old.arrivals }
        requires room { self.old.arrivals + 1 < 2 ^ 32 }
        ensures news { IfOk result (λ new. new ≡ is_news (router_in lsas.now self.old) (lsa_in lsas.now number)) }
        ensures after { OnOk result (router_in lsas.now self.new
            ≡ after_one (router_in lsas.now self.old) (lsa_in lsas.now number)) }
        ensures stored { OnOk result (IsStored lsas.now self.new.store) }
    {
        let change = self.store.install(lsas, number, self.arrivals)?;
        self.arrivals += 1;
        Ok(matches!(change, Change::Added | Change::Replaced))
    }
}

/// Whether the LSA of this number is a router-LSA or a network-LSA.
fn is_area_lsa(lsas: &[Lsa], number: u32) -> bool
    requires { number < length lsas.now }
    ensures { result ≡ is_area_lsa (lsa_in lsas.now number) }
{
    lsas[number as usize].is_area_lsa()
}
