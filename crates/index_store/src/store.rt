//! The store: a disk, and for each pair the cell that was acknowledged.
ghost use Rattle.std.specs.Prelude.{◌≡◌, ◌⊎◌, ◌<◌, ◌≤◌, List, [], ◌∷◌, ◌++◌, length};
ghost use Rattle.std.specs.Prelude.{vec_len, vec_capacity, IsTrue, OnOk, OnErr, IfOk, IfErr, MatchResult, IsErrOf, true, false};
ghost use Rattle.java_model.specs.StateFile.Cells.{Cell as Says, is_sound};
ghost use Rattle.java_tree.specs.Names.{is_container};
ghost use Rattle.index_store.specs.Causes.{TellsSave, TellsMark};
ghost use Rattle.jx_io.specs.Stream.{CountedOne};
ghost use Rattle.jx_disk.specs.Disk.{LeavesOnly};
ghost use Rattle.index_store.specs.Kept.{Acks, acked_as, kept_of, Targets, Recovers, acknowledging, AllFit, AllHave};

use crate::fault::{ReopenFault, SaveFault};
use crate::found::Found;
use crate::opening::open;
use crate::place::next_place;
use crate::reply::SaveReply;
use crate::saving::{save_image, save_mark};
use crate::table::Table;
use index_states::{Cell, LONGEST_IMAGE, StateFault, spell_cell};
use java_tree::Text;
use jx_disk::Disk;
use std::alloc::{AllocError, Global};

/// The indexes of containers, on a disk.
#[derive(Debug, Drop)]
pub struct Store<D: Disk> {
    disk: D,
    table: Table,
    replies: Vec<SaveReply>,
}

impl<D: Disk> Store<D> {
    ghost use Rattle.index_store.specs.Stores.{Keeps, InSession, IsWhole, SavedAs, beginning, next_image, next_mark};
    ghost use Rattle.index_store.specs.Opened.{Finds, RecoversAs, Acknowledges, MayOpen, LeavesFrom};
    ghost use Rattle.java_model.specs.StateFile.Recovered.{Named};

    /// Opens the store of a disk, and answers what is found of each container that is held there. Each image is
    /// read once, at a cost linear in its length.
    pub fn reopen(alloc: Global, disk: D) -> Result<(Store<D>, Vec<(Text, Found)>), ReopenFault<D>>
        ensures opened { IsTrue (D.is_honest disk)
            → IfOk result (λ o. (acks : Acks) × InSession D.may_leave acks [] o.0 × Acknowledges acks (D.seen disk)) }
        ensures found { IsTrue (D.is_honest disk) → IfOk result (λ o. Finds (D.seen disk) o.1.items) }
        ensures since_sync { IsTrue (D.is_honest disk)
            → IfOk result (λ o. LeavesFrom D.moment D.left_since disk o.0.disk (RecoversAs (D.seen disk))) }
        ensures any_moment { IsTrue (D.is_honest disk)
            → MatchResult result (λ o. LeavesOnly D.moment D.left_since disk o.0.disk (MayOpen (D.may_leave disk) (D.seen disk)))
            (λ e. LeavesOnly D.moment D.left_since disk e.disk (MayOpen (D.may_leave disk) (D.seen disk))) }
        ensures cause { IfErr result (λ e. e.cause ≡ StateFault.Disk → CountedOne (D.faults disk) (D.faults e.disk)) }
        ensures memory { IfErr result (λ e. e.cause ≡ StateFault.NoMemory → D.faults e.disk ≡ D.faults disk) }
        ensures quiet { IfOk result (λ o. D.faults o.0.disk ≡ D.faults disk) }
        ensures replies { IfOk result (λ o. o.0.replies.items ≡ []) }
        ensures honest { MatchResult result (λ o. D.is_honest o.0.disk ≡ D.is_honest disk) (λ e. D.is_honest e.disk ≡ D.is_honest disk) }
    {
        let mut disk = disk;
        match open(alloc, &mut disk) {
            Ok((table, found)) => Ok((
                Store {
                    disk,
                    table,
                    replies: Vec::new(alloc),
                },
                found,
            )),
            Err(cause) => Err(ReopenFault { disk, cause }),
        }
    }

    /// The disk, as the calls on it left it.
    pub fn into_disk(self) -> D
        ensures { result ≡ self.disk }
    {
        let Store {
            disk,
            table: _,
            replies: _,
        } = self;
        disk
    }

    /// The replies so far, in their order.
    pub fn replies(&self) -> &[SaveReply]
        ensures { result.now ≡ self.now.replies.items }
    {
        self.replies.as_slice()
    }

    /// Makes room for one reply.
    pub fn reserve(&mut self) -> Result<(), AllocError>
        ensures room { OnOk result (vec_len self.new.replies < vec_capacity self.new.replies) }
        ensures replies { self.new.replies.items ≡ self.old.replies.items }
        ensures disk { self.new.disk ≡ self.old.disk }
        ensures table { self.new.table ≡ self.old.table }
    {
        self.replies.reserve(1)
    }

    /// Appends a reply to those so far, into the room that was made for it.
    pub fn note(&mut self, reply: SaveReply)
        requires { vec_len self.old.replies < vec_capacity self.old.replies }
        ensures replies { self.new.replies.items ≡ self.old.replies.items ++ (reply ∷ []) }
        ensures disk { self.new.disk ≡ self.old.disk }
        ensures table { self.new.table ≡ self.old.table }
    {
        match self.replies.push(reply) {
            Ok(()) => {}
            Err(_) => unreachable!(),
        }
    }

    /// Saves an image in a cell that was chosen for it.
    fn put(
        &mut self,
        alloc: Global,
        pair: u8,
        side: u8,
        generation: u64,
        container: &str,
        image: &[u8],
    ) -> Result<u64, SaveFault>
        requires side { side < 2 }
        requires pair { pair < length self.old.table.entries.items }
        requires name { length container.now ≤ 200 }
        ensures any_moment { (acks : Acks) → IsTrue (D.is_honest self.old.disk) → Keeps D.may_leave acks self.old
            → (let says : Says = record { rebuild = false; generation = generation; size = length image.now; name = container.now } in
            IsTrue (is_sound says) → Targets acks pair side says (acks pair) → LeavesOnly D.moment D.left_since self.old.disk self.new.disk
            (Recovers acks (D.may_leave self.old.disk) container.now (kept_of (acked_as side says image.now)))) }
        ensures fits { (acks : Acks) → IsTrue (D.is_honest self.old.disk) → Keeps D.may_leave acks self.old
            → (let says : Says = record { rebuild = false; generation = generation; size = length image.now; name = container.now } in
            IsTrue (is_sound says) → Targets acks pair side says (acks pair) → AllFit acks (D.may_leave self.new.disk)) }
        ensures saved { (acks : Acks) → IsTrue (D.is_honest self.old.disk) → Keeps D.may_leave acks self.old
            → (let says : Says = record { rebuild = false; generation = generation; size = length image.now; name = container.now } in
            IsTrue (is_sound says) → Targets acks pair side says (acks pair)
            → OnOk result (Keeps D.may_leave (acknowledging acks pair (acked_as side says image.now)) self.new)) }
        ensures there { (acks : Acks) → IsTrue (D.is_honest self.old.disk) → Keeps D.may_leave acks self.old
            → (let says : Says = record { rebuild = false; generation = generation; size = length image.now; name = container.now } in
            IsTrue (is_sound says) → Targets acks pair side says (acks pair)
            → OnOk result (AllHave (kept_of (acked_as side says image.now)) container.now (D.may_leave self.new.disk))) }
        ensures kept { OnErr result (self.new.table ≡ self.old.table) }
        ensures generation { IfOk result (λ g. g ≡ generation) }
        ensures cause { IsErrOf result SaveFault.Disk → CountedOne (D.faults self.old.disk) (D.faults self.new.disk) }
        ensures quiet { OnOk result (D.faults self.new.disk ≡ D.faults self.old.disk) }
        ensures causes { OnErr result (IsErrOf result SaveFault.Disk ⊎ IsErrOf result SaveFault.NoMemory) }
        ensures memory { IsErrOf result SaveFault.NoMemory → self.new ≡ self.old }
        ensures replies { self.new.replies ≡ self.old.replies }
        ensures honest { D.is_honest self.new.disk ≡ D.is_honest self.old.disk }
    {
        let name = Text::from_str(alloc, container)?;
        let cell = spell_cell(false, generation, image.len() as u64, container);
        save_image(&mut self.disk, pair, side, &cell, image)?;
        self.table.entries[pair as usize] = Some(Cell {
            pair,
            side,
            rebuild: false,
            generation,
            length: image.len() as u64,
            name,
        });
        Ok(generation)
    }

    /// Marks a container in a cell that was chosen for it.
    fn put_mark(
        &mut self,
        alloc: Global,
        pair: u8,
        side: u8,
        generation: u64,
        container: &str,
    ) -> Result<u64, SaveFault>
        requires side { side < 2 }
        requires pair { pair < length self.old.table.entries.items }
        requires name { length container.now ≤ 200 }
        ensures any_moment { (acks : Acks) → IsTrue (D.is_honest self.old.disk) → Keeps D.may_leave acks self.old
            → (let says : Says = record { rebuild = true; generation = generation; size = 0; name = container.now } in
            IsTrue (is_sound says) → Targets acks pair side says (acks pair) → LeavesOnly D.moment D.left_since self.old.disk self.new.disk
            (Recovers acks (D.may_leave self.old.disk) container.now (kept_of (acked_as side says [])))) }
        ensures fits { (acks : Acks) → IsTrue (D.is_honest self.old.disk) → Keeps D.may_leave acks self.old
            → (let says : Says = record { rebuild = true; generation = generation; size = 0; name = container.now } in
            IsTrue (is_sound says) → Targets acks pair side says (acks pair) → AllFit acks (D.may_leave self.new.disk)) }
        ensures saved { (acks : Acks) → IsTrue (D.is_honest self.old.disk) → Keeps D.may_leave acks self.old
            → (let says : Says = record { rebuild = true; generation = generation; size = 0; name = container.now } in
            IsTrue (is_sound says) → Targets acks pair side says (acks pair)
            → OnOk result (Keeps D.may_leave (acknowledging acks pair (acked_as side says [])) self.new)) }
        ensures there { (acks : Acks) → IsTrue (D.is_honest self.old.disk) → Keeps D.may_leave acks self.old
            → (let says : Says = record { rebuild = true; generation = generation; size = 0; name = container.now } in
            IsTrue (is_sound says) → Targets acks pair side says (acks pair)
            → OnOk result (AllHave (kept_of (acked_as side says [])) container.now (D.may_leave self.new.disk))) }
        ensures kept { OnErr result (self.new.table ≡ self.old.table) }
        ensures generation { IfOk result (λ g. g ≡ generation) }
        ensures cause { IsErrOf result SaveFault.Disk → CountedOne (D.faults self.old.disk) (D.faults self.new.disk) }
        ensures quiet { OnOk result (D.faults self.new.disk ≡ D.faults self.old.disk) }
        ensures causes { OnErr result (IsErrOf result SaveFault.Disk ⊎ IsErrOf result SaveFault.NoMemory) }
        ensures memory { IsErrOf result SaveFault.NoMemory → self.new ≡ self.old }
        ensures replies { self.new.replies ≡ self.old.replies }
        ensures honest { D.is_honest self.new.disk ≡ D.is_honest self.old.disk }
    {
        let name = Text::from_str(alloc, container)?;
        let cell = spell_cell(true, generation, 0, container);
        save_mark(&mut self.disk, pair, side, &cell)?;
        self.table.entries[pair as usize] = Some(Cell {
            pair,
            side,
            rebuild: true,
            generation,
            length: 0,
            name,
        });
        Ok(generation)
    }

    /// Saves the image of a container's index, and answers its generation.
    pub fn save(&mut self, alloc: Global, container: &str, image: &[u8]) -> Result<u64, SaveFault>
        requires { IsTrue (is_container container.now) }
        ensures answer { (acks : Acks) → Keeps D.may_leave acks self.old → TellsSave acks container.now (length image.now) result }
        ensures any_moment { (acks : Acks) (begun : List Named) → IsTrue (D.is_honest self.old.disk) → InSession D.may_leave acks begun self.old
            → LeavesOnly D.moment D.left_since self.old.disk self.new.disk
            (IsWhole acks (beginning container.now (next_image acks container.now image.now) begun)) }
        ensures saved { (acks : Acks) (begun : List Named) → IsTrue (D.is_honest self.old.disk) → InSession D.may_leave acks begun self.old
            → OnOk result (SavedAs D.may_leave acks begun container.now (next_image acks container.now image.now) self.new) }
        ensures failed { (acks : Acks) (begun : List Named) → IsTrue (D.is_honest self.old.disk) → InSession D.may_leave acks begun self.old
            → OnErr result (InSession D.may_leave acks (beginning container.now (next_image acks container.now image.now) begun) self.new) }
        ensures spared { OnErr result (IsErrOf result SaveFault.Disk ⊎ (self.new ≡ self.old)) }
        ensures cause { IsErrOf result SaveFault.Disk → CountedOne (D.faults self.old.disk) (D.faults self.new.disk) }
        ensures quiet { OnOk result (D.faults self.new.disk ≡ D.faults self.old.disk) }
        ensures replies { self.new.replies ≡ self.old.replies }
        ensures honest { D.is_honest self.new.disk ≡ D.is_honest self.old.disk }
    {
        if image.len() as u64 > LONGEST_IMAGE {
            return Err(SaveFault::TooLong(image.len() as u64));
        }
        match next_place(&self.table.entries, container) {
            Ok(place) => self.put(
                alloc,
                place.pair,
                place.side,
                place.generation,
                container,
                image,
            ),
            Err(fault) => Err(fault),
        }
    }

    /// Marks a container as one that is to be indexed anew, and answers its generation.
    pub fn mark_rebuild(&mut self, alloc: Global, container: &str) -> Result<u64, SaveFault>
        requires { IsTrue (is_container container.now) }
        ensures answer { (acks : Acks) → Keeps D.may_leave acks self.old → TellsMark acks container.now result }
        ensures any_moment { (acks : Acks) (begun : List Named) → IsTrue (D.is_honest self.old.disk) → InSession D.may_leave acks begun self.old
            → LeavesOnly D.moment D.left_since self.old.disk self.new.disk
            (IsWhole acks (beginning container.now (next_mark acks container.now) begun)) }
        ensures marked { (acks : Acks) (begun : List Named) → IsTrue (D.is_honest self.old.disk) → InSession D.may_leave acks begun self.old
            → OnOk result (SavedAs D.may_leave acks begun container.now (next_mark acks container.now) self.new) }
        ensures failed { (acks : Acks) (begun : List Named) → IsTrue (D.is_honest self.old.disk) → InSession D.may_leave acks begun self.old
            → OnErr result (InSession D.may_leave acks (beginning container.now (next_mark acks container.now) begun) self.new) }
        ensures spared { OnErr result (IsErrOf result SaveFault.Disk ⊎ (self.new ≡ self.old)) }
        ensures cause { IsErrOf result SaveFault.Disk → CountedOne (D.faults self.old.disk) (D.faults self.new.disk) }
        ensures quiet { OnOk result (D.faults self.new.disk ≡ D.faults self.old.disk) }
        ensures replies { self.new.replies ≡ self.old.replies }
        ensures honest { D.is_honest self.new.disk ≡ D.is_honest self.old.disk }
    {
        match next_place(&self.table.entries, container) {
            Ok(place) => self.put_mark(alloc, place.pair, place.side, place.generation, container),
            Err(fault) => Err(fault),
        }
    }
}
