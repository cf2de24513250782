//! Packets whose LSAs are told by numbers.

ghost use Rattle.std.specs.Prelude.{◌≡◌, ◌++◌, ◌∷◌, ◌-◌, ◌^◌, [], List, IfOk, OnOk, length, map, min, sum_by};
ghost use Rattle.std.specs.List.{AllByRecursion};
ghost use Rattle.ospf_lsa.specs.declared.lsa.Lsa.{Lsa};
ghost use Rattle.flood.specs.steps.Numbers.{lsas_by, update_in, AreNumbers};

use crate::update::Update;
use mrt_graph::NoMemory;
use ospf_lsa::Lsa;
use std::alloc::Global;

/// A packet whose LSAs are told by their numbers among those of the file.
pub struct NumberedUpdate {
    pub at: u32,
    pub router: u32,
    pub area: u32,
    pub lsas: Vec<u32>,
}

impl Drop for NumberedUpdate {
    fn drop(self) {
        let Self {
            at: _,
            router: _,
            area: _,
            lsas: _,
        } = self;
    }
}

impl NumberedUpdate {
    /// The packet with these LSAs alone.
    pub fn with_lsas(&self, numbers: Vec<u32>) -> NumberedUpdate
        ensures packet { (lsas : List Lsa) → update_in lsas result
            ≡ record (update_in lsas self.now) { lsas = lsas_by lsas numbers.items } }
        ensures lsas { result.lsas.items ≡ numbers.items }
    {
        NumberedUpdate {
            at: self.at,
            router: self.router,
            area: self.area,
            lsas: numbers,
        }
    }
}

/// Packets by the numbers of their LSAs, which come to stand after others one after another.
pub fn numbered_updates(
    alloc: Global,
    lsas: &mut Vec<Lsa>,
    updates: Vec<Update>,
) -> Result<Vec<NumberedUpdate>, NoMemory>
    ensures packets { IfOk result (λ packets. map (update_in lsas.new.items) packets.items ≡ updates.items) }
    ensures numbers { IfOk result (λ packets.
        AllByRecursion (λ packet. AreNumbers lsas.new.items packet.lsas.items) packets.items) }
{
    lsas.reserve(count_of_lsas(updates.as_slice()))?;
    let mut packets = Vec::with_capacity(alloc, updates.as_slice().len())?;
    for update in updates {
        let packet = numbered(alloc, lsas, update)?;
        packets.push(packet)?;
    }
    Ok(packets)
}

/// How many LSAs packets have, or the greatest number where there are more.
fn count_of_lsas(updates: &[Update]) -> usize
    ensures { result ≡ min (sum_by (λ update. length update.lsas) updates.now) (2 ^ 64 - 1) }
{
    let mut count = 0usize;
    for update in updates {
        count = count.saturating_add(update.lsas.as_slice().len());
    }
    count
}

/// A packet by the numbers of its LSAs, which come to stand after others.
fn numbered(alloc: Global, lsas: &mut Vec<Lsa>, update: Update) -> Result<NumberedUpdate, NoMemory>
    ensures lsas { OnOk result (lsas.new.items ≡ lsas.old.items ++ update.lsas) }
    ensures packet { IfOk result (λ packet. update_in lsas.new.items packet ≡ update) }
    ensures numbers { IfOk result (λ packet. AreNumbers lsas.new.items packet.lsas.items) }
{
    let (at, router, area) = (update.at, update.router, update.area);
    let numbers = numbers_of(alloc, lsas, update.into_lsas())?;
    Ok(NumberedUpdate {
        at,
        router,
        area,
        lsas: numbers,
    })
}

/// The numbers of LSAs, which come to stand after others.
fn numbers_of(alloc: Global, lsas: &mut Vec<Lsa>, own: Vec<Lsa>) -> Result<Vec<u32>, NoMemory>
    ensures lsas { OnOk result (lsas.new.items ≡ lsas.old.items ++ own.items) }
    ensures own { IfOk result (λ numbers. lsas_by lsas.new.items numbers.items ≡ own.items) }
    ensures numbers { IfOk result (λ numbers. AreNumbers lsas.new.items numbers.items) }
{
    let mut numbers = Vec::with_capacity(alloc, own.as_slice().len())?;
    for lsa in own {
        numbers.push(put(lsas, lsa)?)?;
    }
    Ok(numbers)
}

/// Puts an LSA after others, and gives its number.
fn put(lsas: &mut Vec<Lsa>, lsa: Lsa) -> Result<u32, NoMemory>
    ensures number { IfOk result (λ number. number ≡ length lsas.old.items) }
    ensures lsas { OnOk result (lsas.new.items ≡ lsas.old.items ++ lsa ∷ []) }
{
    let number = next_number(lsas.as_slice())?;
    lsas.push(lsa)?;
    Ok(number)
}

/// The number of the next LSA. Where 32 bits do not tell it, there is no memory for so many LSAs.
fn next_number(lsas: &[Lsa]) -> Result<u32, NoMemory>
    ensures { IfOk result (λ number. number ≡ length lsas.now) }
{
    if lsas.len() > u32::MAX as usize {
        return Err(NoMemory);
    }
    Ok(lsas.len() as u32)
}
