ghost use Rattle.std.specs.Prelude.{◌≡◌, ◌+◌, ◌<◌, ◌≤◌, ◌^◌, ◌⊎◌, true, false, length, IfOk, IfErr};
ghost use Rattle.task_word.specs.declared.phases.Phase.TheVariants.{Vacant, New, Running};
ghost use Rattle.task_word.specs.Words.{new_in, started, rearmed, ended_well, ended_badly, is_live, is_ended_phase, is_cancelled, marked, IsWord};
ghost use Rattle.task_word.specs.Views.{entry, with_entry, and_if, MeetsEntry, most_handles, one_out, new_handle, joined_with};
ghost use Rattle.task_word.specs.declared.fault.WordError.TheVariants.{Seats};
ghost use Rattle.task_word.specs.Steps.{CoreTells};
ghost use Rattle.task_word.specs.Answers.{after_move, after_cancel, is_won, MoveMeets, MoveWrites, CoreCancels};
ghost use Rattle.task_word.specs.Writes as write;
ghost use Rattle.task_word.specs.own.Writes as own_write;

use crate::answers::{CoreCancel, Moved};
use crate::fault::WordError;
use crate::handle_side::HandleSeat;
use crate::limits::MOST_HANDLES;
use crate::plays;
use crate::rule::Handing;
use crate::table::TaskWords;
use crate::values::{BIT, Word};
use crate::views::View;
use atomic_table::Seat;
use std::alloc::Allocator;
use std::marker::Model;

/// The one seat of a table that moves its tasks.
///
/// It knows a word of each task, its entry: the task's word is the entry, or the entry with the bit of a
/// cancel. Contracts see the entries, the tasks that this seat cancelled, those that the handles cancelled
/// which came back, the ranks that these handles met, and the number of handles that are out. Each call takes the
/// seat's own table, and is one atomic step.
#[derive(Drop)]
pub struct CoreSeat<A: Allocator> {
    pub(crate) seat: Seat<(), View>,
    pub(crate) entries: Vec<Word, A>,
    pub(crate) out: u8,
}

impl<A: Allocator> Model for CoreSeat<A> {
    ghost use Rattle.std.specs.Prelude.{◌≡◌, ◌+◌, ◌≤◌, length};
    ghost use Rattle.task_word.specs.declared.views.View.TheVariants.{Core};
    ghost use Rattle.task_word.specs.Views.{most_handles};
    ghost use Rattle.task_word.specs.own.Views.{core_of};
    ghost use Rattle.task_word.specs.Answers.{CoreKnows};

    ghost Value = { CoreKnows };

    ghost view = { λ s. record { table = s.seat.table_id; view = core_of s.seat.me.0 } };

    ghost invariant = { λ s. (s.seat.id ≡ 0) × (s.seat.me.0 ≡ Core (core_of s.seat.me.0)) × (s.entries.items ≡ (core_of s.seat.me.0).entries) × (s.out ≡ (core_of s.seat.me.0).out) × (s.out ≤ most_handles) × (length s.entries.items + 1 ≡ s.seat.table_id.words) };
}

impl<A: Allocator> CoreSeat<A> {
    /// Submits the task, which is vacant in the core's view, with the bit or without: its word is new in
    /// run 0, without the bit.
    pub fn submit(&mut self, words: &TaskWords<A>, k: u32)
        requires table { self.old.table ≡ words.now.table }
        requires task { k < words.now.tasks }
        requires phase { (entry self.old.view k).phase ≡ Vacant }
        ensures table { self.new.table ≡ self.old.table }
        ensures view { self.new.view ≡ with_entry self.old.view k (new_in 0) }
        ensures write { write.ChangesWord write.submit (entry self.old.view k)
            (entry self.new.view k) }
    {
        let next = self.known(words, k).submitted();
        words
            .table
            .shared
            .store::<plays::Submits>(&mut self.seat, k as usize + 1, next.value());
        self.entries[k as usize] = next;
    }

    /// Begins the task's run. In the core's view the task waits and is not cancelled.
    ///
    /// Here and in each move below the answer is by the word that the call met: [`Moved::Yes`] where it had
    /// no bit. At [`Moved::Cancelled`] the entry has the bit now and nothing else changed.
    pub fn start(&mut self, words: &TaskWords<A>, k: u32) -> Moved
        requires table { self.old.table ≡ words.now.table }
        requires task { k < words.now.tasks }
        requires phase { (entry self.old.view k).phase ≡ New }
        requires live { is_cancelled (entry self.old.view k) ≡ false }
        ensures table { self.new.table ≡ self.old.table }
        ensures view { self.new.view
            ≡ after_move self.old.view k result (started (entry self.old.view k)) }
        ensures met { MoveMeets self.old.view k result }
        ensures write { MoveWrites write.start (entry self.old.view k) result
            (entry self.new.view k) }
    {
        let next = self.known(words, k).started();
        self.advance(words, k, next)
    }

    /// Ends the task's last run, which went well. In the core's view the task is run and is not cancelled.
    pub fn done(&mut self, words: &TaskWords<A>, k: u32) -> Moved
        requires table { self.old.table ≡ words.now.table }
        requires task { k < words.now.tasks }
        requires phase { (entry self.old.view k).phase ≡ Running }
        requires live { is_cancelled (entry self.old.view k) ≡ false }
        ensures table { self.new.table ≡ self.old.table }
        ensures view { self.new.view
            ≡ after_move self.old.view k result (ended_well (entry self.old.view k)) }
        ensures met { MoveMeets self.old.view k result }
        ensures write { MoveWrites write.done (entry self.old.view k) result
            (entry self.new.view k) }
    {
        let next = self.known(words, k).done();
        self.advance(words, k, next)
    }

    /// Ends the task's last run, which failed. In the core's view the task is run and is not cancelled.
    pub fn fail(&mut self, words: &TaskWords<A>, k: u32) -> Moved
        requires table { self.old.table ≡ words.now.table }
        requires task { k < words.now.tasks }
        requires phase { (entry self.old.view k).phase ≡ Running }
        requires live { is_cancelled (entry self.old.view k) ≡ false }
        ensures table { self.new.table ≡ self.old.table }
        ensures view { self.new.view
            ≡ after_move self.old.view k result (ended_badly (entry self.old.view k)) }
        ensures met { MoveMeets self.old.view k result }
        ensures write { MoveWrites write.fail (entry self.old.view k) result
            (entry self.new.view k) }
    {
        let next = self.known(words, k).failed();
        self.advance(words, k, next)
    }

    /// Ends the task's run, and lets it wait for the next one. In the core's view the task is run and is
    /// not cancelled, and its run is below 4,294,967,295.
    pub fn rearm(&mut self, words: &TaskWords<A>, k: u32) -> Moved
        requires table { self.old.table ≡ words.now.table }
        requires task { k < words.now.tasks }
        requires phase { (entry self.old.view k).phase ≡ Running }
        requires live { is_cancelled (entry self.old.view k) ≡ false }
        requires run { (entry self.old.view k).run + 1 < 2 ^ 32 }
        ensures table { self.new.table ≡ self.old.table }
        ensures view { self.new.view
            ≡ after_move self.old.view k result (rearmed (entry self.old.view k)) }
        ensures met { MoveMeets self.old.view k result }
        ensures write { MoveWrites write.rearm (entry self.old.view k) result
            (entry self.new.view k) }
    {
        let next = self.known(words, k).rearmed();
        self.advance(words, k, next)
    }

    /// Sets the bit of the task's word, whatever the word is, and answers by the word that it met: the
    /// entry, or the entry with the bit. The entry has the bit now.
    ///
    /// Where the task waits or is run in the core's view, the answer is [`CoreCancel::Won`], and the task is one of
    /// those that this seat cancelled, or [`CoreCancel::Late`], which always comes where the entry had the bit. Where
    /// the task has ended it is [`CoreCancel::Over`], and where it was not submitted [`CoreCancel::Vacant`]. At each
    /// answer but `Won` nothing but the entry's bit changed.
    pub fn cancel(&mut self, words: &TaskWords<A>, k: u32) -> CoreCancel
        requires table { self.old.table ≡ words.now.table }
        requires task { k < words.now.tasks }
        ensures table { self.new.table ≡ self.old.table }
        ensures met { CoreCancels self.old.view k result self.new.view }
        ensures own { self.new.view.own ≡ and_if (is_won result) k self.old.view.own }
        ensures view { self.new.view ≡ after_cancel self.old.view k result }
        ensures live { is_live (entry self.old.view k).phase ≡ true
            → (result ≡ CoreCancel.Won) ⊎ (result ≡ CoreCancel.Late) }
        ensures late { is_cancelled (entry self.old.view k) ≡ true → result ≡ CoreCancel.Late }
        ensures ended { is_ended_phase (entry self.old.view k).phase ≡ true
            → result ≡ CoreCancel.Over }
        ensures vacant { (entry self.old.view k).phase ≡ Vacant → result ≡ CoreCancel.Vacant }
    {
        let found = words
            .table
            .shared
            .fetch_or::<plays::CoreCancels>(&mut self.seat, k as usize + 1, BIT);
        let met = Word::of_value(found);
        self.entries[k as usize] = met.with_cancel_bit();
        CoreCancel::of_word(met)
    }

    /// Reads the task's word, which is its entry from now on: the entry as it was, or that with the bit. A cancelled
    /// word has the bit, so the entry is then as at [`Moved::Cancelled`].
    pub fn look(&mut self, words: &TaskWords<A>, k: u32) -> Word
        requires table { self.old.table ≡ words.now.table }
        requires task { k < words.now.tasks }
        ensures table { self.new.table ≡ self.old.table }
        ensures count { length self.old.view.entries ≡ words.now.tasks }
        ensures met { MeetsEntry (entry self.old.view k) result }
        ensures tells { CoreTells self.old.view k result }
        ensures view { self.new.view ≡ with_entry self.old.view k result }
        ensures phase { (result.phase ≡ (entry self.old.view k).phase)
            × (result.run ≡ (entry self.old.view k).run) }
        ensures cancelled { is_cancelled result ≡ true → result ≡ marked (entry self.old.view k) }
    {
        let found = words
            .table
            .shared
            .load::<plays::CoreLooks>(&mut self.seat, k as usize + 1);
        let met = Word::of_value(found);
        self.entries[k as usize] = met;
        met
    }

    /// How many handles are out, 0 to [`MOST_HANDLES`]. No word is touched, and no memory taken.
    pub fn handles(&self) -> u8
        ensures count { result ≡ self.now.view.out }
        ensures most { result ≤ most_handles }
    {
        self.out
    }

    /// Cuts off a new handle, which has met and cancelled nothing.
    ///
    /// The error is [`WordError::Seats`], exactly when [`MOST_HANDLES`] are out; then nothing changed. So at most
    /// that many are out.
    pub fn split(&mut self, words: &TaskWords<A>) -> Result<HandleSeat, WordError>
        requires table { self.old.table ≡ words.now.table }
        ensures ok { IfOk result
            (λ h. (self.old.view.out < most_handles) × (self.new.view ≡ one_out self.old.view)
            × (h.table ≡ self.old.table) × (h.view ≡ new_handle words.now.tasks)) }
        ensures err { IfErr result
            (λ e. (e ≡ Seats) × (self.old.view.out ≡ most_handles)
            × (self.new.view ≡ self.old.view)) }
        ensures table { self.new.table ≡ self.old.table }
        ensures most { self.new.view.out ≤ most_handles }
    {
        if self.out >= MOST_HANDLES {
            return Err(WordError::Seats);
        }
        let seat = words.table.shared.split_seat::<Handing>(&mut self.seat);
        self.out += 1;
        Ok(HandleSeat { seat })
    }

    /// Takes a handle back. What it cancelled is joined now, and of each task the core knows the greater
    /// of the ranks that it knew and that the handle met.
    pub fn join(&mut self, words: &TaskWords<A>, handle: HandleSeat)
        requires table { self.old.table ≡ words.now.table }
        requires handle { handle.table ≡ words.now.table }
        ensures table { self.new.table ≡ self.old.table }
        ensures view { self.new.view ≡ joined_with self.old.view handle.view }
    {
        let HandleSeat { seat } = handle;
        words
            .table
            .shared
            .join_seat::<Handing>(&mut self.seat, seat);
        // At least this handle was out: the rule of the words says so, though no step tells it.
        self.out = self.out.saturating_sub(1);
    }

    // The task's word as the core knows it.
    fn known(&self, words: &TaskWords<A>, k: u32) -> Word
        requires table { self.now.table ≡ words.now.table }
        requires task { k < words.now.tasks }
        ensures { result ≡ entry self.now.view k }
    {
        let _ = &words.tasks;
        self.entries[k as usize]
    }

    // Moves the task's word on to `next`, if it is as the core knows it. If not, it has the bit.
    fn advance(&mut self, words: &TaskWords<A>, k: u32, next: Word) -> Moved
        requires table { self.old.table ≡ words.now.table }
        requires task { k < words.now.tasks }
        requires exchange { own_write.Exchanges (entry self.old.view k) next }
        ensures table { self.new.table ≡ self.old.table }
        ensures view { self.new.view ≡ after_move self.old.view k result next }
        ensures met { MoveMeets self.old.view k result }
        ensures write { (kind : write.Kind) → write.ChangesWord kind (entry self.old.view k) next
            → MoveWrites kind (entry self.old.view k) result (entry self.new.view k) }
    {
        let word = self.known(words, k);
        let old = word.value();
        let found = words
            .table
            .shared
            .compare_exchange::<plays::Moves>(&mut self.seat, k as usize + 1, old, next.value());
        if found == old {
            self.entries[k as usize] = next;
            Moved::Yes
        } else {
            self.entries[k as usize] = word.with_cancel_bit();
            Moved::Cancelled
        }
    }
}
