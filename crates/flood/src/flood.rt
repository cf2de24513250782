//! Packets and the routers that they reach.

ghost use Rattle.std.specs.Prelude.{◌≡◌, ◌≤◌, ◌<◌, ◌+◌, ◌++◌, ◌^◌, ◌↔◌, ℕ, List, Option, None, Some, IfOk, OnOk, length, map, replicate};
ghost use Rattle.std.specs.List.{AllByRecursion};
ghost use Rattle.ospf_lsa.specs.declared.lsa.Lsa.{Lsa};
ghost use Rattle.flood.specs.{FloodStep.answer_of, FloodStep.sent_on, Receiving.new_router};
ghost use Rattle.flood.specs.steps.Numbers.{lsas_by, router_in, update_in, AreNumbers, IsStored};

use crate::answer::Answer;
use crate::numbered_update::{NumberedUpdate, numbered_updates};
use crate::receiver::Receiver;
use crate::shared_lsdb::SharedLsdb;
use crate::update::Update;
use lsdb::FileKey;
use mrt_graph::NoMemory;
use ospf_lsa::Lsa;
use std::alloc::Global;
use std::marker::Model;

/// Packets, and routers each with a database of its own, which packets reach in any order, any number of times, or
/// never. Of RFC 2328 it has which of two instances is newer (section 13.1) and that what was new is sent on (section
/// 13.3), and nothing else of section 13.
///
/// Each LSA of the file stands once in a list; packets and databases have its number there.
pub struct Flood {
    alloc: Global,
    lsas: Vec<Lsa>,
    packets: Vec<NumberedUpdate>,
    routers: Vec<Receiver>,
    changed: u32,
}

impl Drop for Flood {
    fn drop(self) {
        let Self {
            alloc: _,
            lsas: _,
            packets: _,
            routers: _,
            changed: _,
        } = self;
    }
}

impl Model for Flood {
    ghost use Rattle.flood.specs.FloodState.{FloodState};
    ghost use Rattle.flood.specs.steps.Numbers.{flood_in, IsFloodIn};

    ghost Value = { FloodState };

    ghost view = { λ f. flood_in f.lsas.items f.packets.items f.routers.items f.changed };

    ghost invariant = { λ f. IsFloodIn f.lsas.items f.packets.items f.routers.items f.changed };
}

impl Flood {
    ghost use Rattle.flood.specs.declared.answer.Answer.TheVariants as answers;
    ghost use Rattle.flood.specs.{FloodState.database_of, FloodState.started, FloodStep.delivered, Receiving.MayFlood};

    /// The packets of a file and the key that its bytes give, and so many routers with empty databases. There are 1 to 64 routers, at most
    /// 4,294,000,000 packets, and at most 65,535 LSAs in each; those of types 1 and 2 may stand in a database.
    ///
    /// # Errors
    ///
    /// [`NoMemory`] where there was none for the list of the routers, of the LSAs, or of the numbers in a packet.
    pub fn new(
        alloc: Global,
        file: FileKey,
        updates: Vec<Update>,
        routers: u16,
    ) -> Result<Flood, NoMemory>
        requires some { 1 ≤ routers }
        requires few { routers ≤ 64 }
        requires few_updates { length updates.items ≤ 4294000000 }
        requires may_flood { AllByRecursion MayFlood updates.items }
        ensures { IfOk result (λ flood. flood ≡ started updates.items routers) }
    {
        let mut lsas = Vec::new(alloc);
        let packets = numbered_updates(alloc, &mut lsas, updates)?;
        let routers = new_routers(alloc, file, routers)?;
        Ok(Flood {
            alloc,
            lsas,
            packets,
            routers,
            changed: 0,
        })
    }

    /// Delivers the packet of this number to the router of this number, both from 0. Fewer than 65,535 deliveries were
    /// answered [`Answer::Changed`] before.
    ///
    /// Each LSA of type 1 or 2 is installed in turn, with the number of those that arrived at that router before as its
    /// place. Those whose install answers `Added` or `Replaced` are new, and become a packet, the last one, which the
    /// router sends on: with the place, the router and the area of the delivered one, and the LSAs as they stand there.
    ///
    /// It takes, over many deliveries, a look-up for each LSA, and the time of comparing its bytes where another LSA of the
    /// file is there, of its rank. It copies no LSA: the database and the new packet have the numbers that the delivered one
    /// has.
    ///
    /// # Errors
    ///
    /// [`NoMemory`] where there was none for a database or for the new packet. The whole is given up then.
    pub fn deliver(self, packet: u32, router: u16) -> Result<(Flood, Answer), NoMemory>
        requires { self.changed < 65535 }
        ensures answer { IfOk result (λ done. done.1 ≡ (delivered self packet router).0) }
        ensures state { IfOk result (λ done. done.0 ≡ (delivered self packet router).1) }
        // The cause of each refusal.
        ensures no_packet { IfOk result (λ done. (done.1 ≡ answers.NoSuchPacket) ↔ (length self.packets ≤ packet)) }
        ensures no_router { IfOk result (λ done.
            (done.1 ≡ answers.NoSuchRouter) ↔ ((packet < length self.packets) × (length self.routers ≤ router))) }
        // No packet is sent on exactly where no LSA was new.
        ensures sent { IfOk result (λ done. (count : ℕ) (sent : Option ℕ)
            → done.1 ≡ answers.Changed count sent → (sent ≡ None) ↔ (count ≡ 0)) }
    {
        if self.packets.as_slice().len() <= packet as usize {
            return Ok((self, Answer::NoSuchPacket));
        }
        if self.routers.as_slice().len() <= usize::from(router) {
            return Ok((self, Answer::NoSuchRouter));
        }
        let Flood {
            alloc,
            lsas,
            mut packets,
            mut routers,
            changed,
        } = self;
        let update = &packets[packet as usize];
        let numbers = update.lsas.as_slice();
        let news = routers[usize::from(router)].receive(alloc, lsas.as_slice(), numbers)?;
        let sent = update.with_lsas(news);
        let answer = send_on(&mut packets, sent)?;
        let flood = Flood {
            alloc,
            lsas,
            packets,
            routers,
            changed: changed + 1,
        };
        Ok((flood, answer))
    }

    /// A router's database.
    pub fn database(&self, router: u16) -> SharedLsdb<'_>
        requires { router < length self.now.routers }
        ensures { database_of self.now router ≡ Some result }
    {
        SharedLsdb::new(
            self.lsas.as_slice(),
            &self.routers[usize::from(router)].store,
        )
    }
}

/// So many routers with empty databases.
fn new_routers(alloc: Global, file: FileKey, count: u16) -> Result<Vec<Receiver>, NoMemory>
    ensures routers { (lsas : List Lsa) → IfOk result (λ routers.
        map (router_in lsas) routers.items ≡ replicate count new_router) }
    ensures stored { (lsas : List Lsa) → IfOk result (λ routers.
        AllByRecursion (λ router. IsStored lsas router.store) routers.items) }
{
    let mut routers = Vec::with_capacity(alloc, usize::from(count))?;
    for _number in 0..count {
        routers.push(Receiver::new(alloc, file))?;
    }
    Ok(routers)
}

/// Puts a packet of new LSAs at the end, if there are any, and tells how many there are and the packet's number.
fn send_on(packets: &mut Vec<NumberedUpdate>, sent: NumberedUpdate) -> Result<Answer, NoMemory>
    requires few { length sent.lsas.items < 2 ^ 32 }
    requires room { length packets.old.items < 2 ^ 32 }
    ensures answer { (lsas : List Lsa) → IfOk result (λ answer.
        answer ≡ answer_of (length packets.old.items) (lsas_by lsas sent.lsas.items)) }
    ensures packets { (lsas : List Lsa) → OnOk result (map (update_in lsas) packets.new.items
        ≡ map (update_in lsas) packets.old.items ++ sent_on (update_in lsas sent) (lsas_by lsas sent.lsas.items)) }
    ensures numbers { (lsas : List Lsa) → AreNumbers lsas sent.lsas.items
        → AllByRecursion (λ packet. AreNumbers lsas packet.lsas.items) packets.old.items
        → OnOk result (AllByRecursion (λ packet. AreNumbers lsas packet.lsas.items) packets.new.items) }
{
    let count = sent.lsas.len() as u32;
    if count == 0 {
        return Ok(Answer::Changed { count, sent: None });
    }
    let number = packets.as_slice().len() as u32;
    packets.push(sent)?;
    Ok(Answer::Changed {
        count,
        sent: Some(number),
    })
}
