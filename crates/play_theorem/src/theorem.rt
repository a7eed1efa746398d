//! An edit of a log, with the theorem as its contract.

ghost use Rattle.std.specs.Prelude.{◌≡◌, ◌⊎◌, IfErr, IfOk, List, ℕ};
ghost use Rattle.std.specs.Io.KnownBytes.{Appends, Keeps};
ghost use Rattle.cave_play.specs.Sources.{AreTextsOf, InputTexts};
ghost use Rattle.cave_play.specs.declared.fault.PlayFault.{PlayFault};
ghost use Rattle.play_theorem.specs.Theorem.{EditedAsPlayed};

use cave_play::{Inputs, PlayFault, run_edit};
use play_command::{EditView, Editing};
use play_edits::EditRun;
use std::alloc::Global;
use std::io::{Read, Write};

/// Edits a log by a script, and writes a report on each item and then the transcript of the edited
/// log, as `cave edit` does. Returns how many lines were played for the items, among others. A run
/// that fails has written nothing, unless its writer failed.
pub fn edit_log<C: Read, B: Read, L: Read, S: Read, W: Write>(
    alloc: Global,
    inputs: &mut Inputs<C, B, L, S>,
    editing: Editing,
    output: &mut W,
) -> Result<EditRun, PlayFault>
    ensures edited { (texts : InputTexts)
        × AreTextsOf C.remaining B.remaining L.remaining S.remaining inputs.old texts
        × IfOk result (λ run. (printed : List ℕ)
        × Appends (W.contents output.old) (W.contents output.new) printed
        × EditedAsPlayed texts.database texts.bindings texts.log texts.script editing.seed
        editing.every editing.guarded printed run.played) }
    ensures failed { IfErr result (λ found. (found ≡ PlayFault.Write)
        ⊎ Keeps (W.contents output.old) (W.contents output.new)) }
{
    let editing = Editing {
        view: EditView::Transcript,
        ..editing
    };
    run_edit(alloc, inputs, editing, None, output)
}
