//! What watches the items of a script while they are applied: a view, or a report beside one.

ghost use Rattle.std.specs.Prelude.{◌≡◌, ◌++◌, [], IfOk, None, OnOk, reverse};
ghost use Rattle.replay_edits.specs.Edit.{changes_of};
ghost use Rattle.replay_edits.specs.Faults.{fault_of_all};
ghost use Rattle.replay_scripts.specs.ScriptText.{groups_in};
ghost use Rattle.replay_scripts.specs.Views.{applied_item};
ghost use Rattle.play_edits.specs.Ends.{ends_left, printed_text, shown_ends};
ghost use Rattle.play_edits.specs.ItemWatch.{backs_after, guarded_before, state_before, text_after};
ghost use Rattle.play_edits.specs.ItemWatch.{text_at_end, text_at_start};
ghost use Rattle.play_edits.specs.Outcome.{refusal_in};

use crate::ends::{LogEnds, with_line_ends};
use crate::outcome::Totals;
use crate::refusal::Refusal;
use crate::reports::{last_state, put_account, put_report, put_row, put_totals};
use crate::undo::{guarded_group, keep_back, put_if_done};
use base_text::Text;
use cave_replay::{GroupReport, Session};
use cave_world::State;
use play_command::EditView;
use play_machine::{CaveMachine, push_final_state, push_play, push_score, push_steps, push_walk};
use play_tables::push_item_head_row;
use replay_scripts::{BackEdit, Item, push_script};
use std::alloc::{AllocError, Global};

/// What a view writes of the items of a script, and what it keeps for that.
#[derive(Drop)]
pub(crate) struct ItemWatch {
    /// No view writes nothing.
    view: Option<EditView>,
    /// Whether what takes an item back has guards.
    guarded: bool,
    text: Vec<u8>,
    /// The state before an item, for its row in a table.
    state: Option<State>,
    /// The item with guards of the log before it.
    group: Vec<u8>,
    /// What takes the items back.
    backs: Vec<Vec<BackEdit>>,
    /// How the lines of the log end.
    ends: LogEnds,
}

impl ItemWatch {
    /// A view that has seen no item of a script over a log whose lines end like this.
    pub(crate) fn start(
        alloc: Global,
        view: Option<EditView>,
        guarded: bool,
        ends: LogEnds,
    ) -> Result<ItemWatch, AllocError>
        ensures view { IfOk result (λ watch. watch.view ≡ view) }
        ensures guarded { IfOk result (λ watch. watch.guarded ≡ guarded) }
        ensures text { IfOk result (λ watch. watch.text.items ≡ text_at_start view) }
        ensures backs { IfOk result (λ watch. groups_in watch.backs.items ≡ []) }
        ensures ends { IfOk result (λ watch. watch.ends ≡ ends) }
    {
        let mut text = Vec::new(alloc);
        if let Some(EditView::Table) = view {
            push_item_head_row(&mut text)?;
        }
        Ok(ItemWatch {
            view,
            guarded,
            text,
            state: None,
            group: Vec::new(alloc),
            backs: Vec::new(alloc),
            ends,
        })
    }

    /// Sees the held game before an item is applied to it.
    pub(crate) fn before(
        &mut self,
        alloc: Global,
        session: &Session<CaveMachine<'_>>,
        item: &Item,
    ) -> Result<(), AllocError>
        ensures view { self.new.view ≡ self.old.view }
        ensures guarded { self.new.guarded ≡ self.old.guarded }
        ensures text { self.new.text.items ≡ self.old.text.items }
        ensures state { OnOk result (self.new.state ≡ state_before self.old.view
            session.now.machine.rules.cave.now session.now.game) }
        ensures group { OnOk result (self.new.group.items
            ≡ guarded_before self.old.view (applied_item item.now) session.now.game) }
        ensures backs { self.new.backs ≡ self.old.backs }
        ensures ends { self.new.ends ≡ self.old.ends }
    {
        self.state = None;
        self.group.clear();
        match self.view {
            Some(EditView::Table) => {
                self.state = Some(*last_state(session));
                Ok(())
            }
            Some(EditView::Guarded) => {
                self.group = guarded_group(alloc, &item.edits, session.log())?;
                Ok(())
            }
            _ => Ok(()),
        }
    }

    /// Sees an item that was applied, and the game that is held then.
    pub(crate) fn after(
        &mut self,
        alloc: Global,
        session: &Session<CaveMachine<'_>>,
        item: &Item,
        outcome: &Result<GroupReport, Refusal>,
    ) -> Result<(), AllocError>
        requires back_free { IfOk outcome.now (λ done.
            fault_of_all (changes_of done.inverse.items) session.now.game.log 0 ≡ None) }
        ensures view { self.new.view ≡ self.old.view }
        ensures guarded { self.new.guarded ≡ self.old.guarded }
        ensures text { OnOk result (self.new.text.items ≡ self.old.text.items
            ++ text_after self.old.view session.now.machine.rules.cave.now (applied_item item.now)
            outcome.now self.old.state self.old.group.items session.now.game) }
        ensures backs { OnOk result (groups_in self.new.backs.items
            ≡ groups_in self.old.backs.items
            ++ backs_after self.old.view self.old.guarded outcome.now session.now.game.log) }
        ensures ends { OnOk result (shown_ends self.new.ends
            ≡ ends_left (applied_item item.now) (refusal_in outcome.now) (shown_ends self.old.ends)) }
    {
        let mut text = Text::after(alloc, &mut self.text);
        match (self.view, &self.state) {
            (Some(EditView::Transcript), _) => put_report(&mut text, item, outcome),
            (Some(EditView::Reports), _) => put_account(&mut text, session, item, outcome),
            (Some(EditView::Table), Some(before)) => {
                put_row(&mut text, session, item, outcome, before)
            }
            (Some(EditView::Guarded), _) => put_if_done(&mut text, outcome, &self.group),
            (Some(EditView::Undo), _) => {
                keep_back(alloc, session, self.guarded, outcome, &mut self.backs)?
            }
            _ => {}
        }
        text.give_to(&mut self.text)?;
        self.ends.follow(item, outcome)
    }

    /// All that the view prints, if these were the items, and this game is held after them.
    #[tactic(auto, using(crate::proofs::UndoLemmas::groups_turned))]
    pub(crate) fn end(
        self,
        alloc: Global,
        session: &Session<CaveMachine<'_>>,
        totals: Totals,
    ) -> Result<Vec<u8>, AllocError>
        ensures { IfOk result (λ made. made.items ≡ printed_text self.view (shown_ends self.ends)
            (self.text.items ++ text_at_end self.view session.now.machine.rules.cave.now
            session.now.game totals.played totals.lines (reverse (groups_in self.backs.items)))) }
    {
        let ItemWatch {
            view,
            mut text,
            mut backs,
            ends,
            ..
        } = self;
        match view {
            Some(EditView::Transcript | EditView::Play) => push_play(alloc, session, &mut text)?,
            Some(EditView::Log) => {
                session.push_log(&mut text)?;
                return with_line_ends(alloc, ends.usual, ends.unended, &ends.each, &text);
            }
            Some(EditView::Undo) => {
                backs.reverse();
                push_script(alloc, &mut text, &backs)?;
                return with_line_ends(alloc, ends.usual, false, &[], &text);
            }
            Some(EditView::Guarded) => {
                return with_line_ends(alloc, ends.usual, false, &[], &text);
            }
            Some(EditView::Reports) => {
                let mut report = Text::after(alloc, &mut text);
                put_totals(&mut report, totals);
                report.give_to(&mut text)?;
            }
            Some(EditView::Steps) => push_steps(alloc, session, &mut text)?,
            Some(EditView::Walk) => push_walk(alloc, session, &mut text)?,
            Some(EditView::Score) => push_score(alloc, session, &mut text)?,
            Some(EditView::FinalState) => push_final_state(alloc, session, &mut text)?,
            Some(EditView::Table) | None => {}
        }
        Ok(text)
    }
}
