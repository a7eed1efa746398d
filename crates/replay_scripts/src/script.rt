ghost use Rattle.std.specs.Prelude.{◌≡◌, ◌⊎◌, List, [], true, IfErr, IfOk, MatchResult, None, Ok};
ghost use Rattle.std.specs.Prelude.{Err, OnOk};
ghost use Rattle.std.specs.Str.Lines.{lines};
ghost use Rattle.replay_edits.specs.Edit.{change_of};
ghost use Rattle.replay_scripts.specs.Guards.{guarded_script_of, IsRefusedByGuards, IsScriptBy};
ghost use Rattle.replay_scripts.specs.Guards.{reading_with_guard, unguarded_line};
ghost use Rattle.replay_scripts.specs.Script.{Applied, group_at_line, group_with_change};
ghost use Rattle.replay_scripts.specs.Script.{line_of_refusal, IsScript, items_at_end, script_of};
ghost use Rattle.replay_scripts.specs.Script.{reading_with, reading_with_item};
ghost use Rattle.replay_scripts.specs.Line.{begin, end, edit, expected_in, kind_of_script_line};
ghost use Rattle.replay_scripts.specs.Malformed.{IsFirstMalformed};
ghost use Rattle.replay_scripts.specs.Views.{IsFaultOf, IsStep, applied_item, expectations_of};
ghost use Rattle.replay_scripts.specs.Views.{items_of, open_of, reading_of, step_of};

use crate::fault::{ScriptFlaw, ScriptRefusal};
use crate::guard::Guard;
use crate::line::{ScriptLine, expected_in, read_line};
use base_lines::split_line;
use replay_edits::{Edit, LineText};
use std::alloc::Global;
use std::mem;

/// What a script applies as a whole: one edit, or a group of them.
#[derive(Debug, Drop)]
pub struct Item {
    /// The number of the line that reports name for the item: that of its only edit, or of the
    /// group's `begin`.
    pub line: usize,
    pub edits: Vec<Edit>,
    /// The number of each edit's line.
    pub lines: Vec<usize>,
    /// The guards of the item, in the order of their lines.
    pub guards: Vec<Guard>,
}

impl Item {
    /// The number of the line that a refusal names for the edit with this number, from 0: the
    /// edit's own line, or the item's if there is no such edit.
    pub fn line_of(&self, at: usize) -> usize
        ensures { result ≡ line_of_refusal (applied_item self.now) at }
    {
        self.lines.get(at).copied().unwrap_or(self.line)
    }

    /// A group without edits yet, whose `begin` is on the line.
    fn begun(alloc: Global, line: usize) -> Item
        ensures { applied_item result ≡ group_at_line line }
    {
        Item {
            line,
            edits: Vec::new(alloc),
            lines: Vec::new(alloc),
            guards: Vec::new(alloc),
        }
    }

    /// Adds the edit of a line.
    fn join(&mut self, line: usize, edit: Edit) -> Result<(), ScriptRefusal>
        ensures { MatchResult result
            (λ _. applied_item self.new
            ≡ group_with_change (applied_item self.old) line (change_of edit))
            (λ fault. fault ≡ ScriptRefusal.Memory) }
    {
        self.edits.push(edit)?;
        self.lines.push(line)?;
        Ok(())
    }
}

/// The edits of a script, in the order in which they are applied.
#[derive(Debug, Drop)]
pub struct Script {
    pub items: Vec<Item>,
}

impl Script {
    /// Reads a script. A script with a malformed line is refused as a whole.
    #[tactic(auto, using(crate::proofs::Grammar::answers, crate::proofs::Malformed::firsts))]
    pub fn read(alloc: Global, text: &[u8]) -> Result<Script, ScriptRefusal>
        ensures script { MatchResult result
            (λ script. script_of text.now ≡ Ok (items_of script.items))
            (λ fault. IsFaultOf fault (script_of text.now)) }

        // By the grammar the script spells what was read, and nothing else; a refused script spells
        // nothing.
        ensures grammar { IfOk result
            (λ script. IsScript 1 (lines text.now) (items_of script.items)) }
        ensures only { IfOk result
            (λ script. (items : List Applied) → IsScript 1 (lines text.now) items
            → items ≡ items_of script.items) }
        ensures none { IfErr result (λ fault. (fault ≡ ScriptRefusal.Memory)
            ⊎ ((items : List Applied) → ¬ IsScript 1 (lines text.now) items)) }
        ensures first { IfErr result (IsFirstMalformed (lines text.now)) }
    {
        read_lines(alloc, text)
    }

    /// Reads a script in which lines may be guards, `expect N TEXT`. The grammar takes such a line
    /// as blank.
    #[tactic(auto, using(crate::proofs::GuardedGrammar::answers))]
    pub fn read_guarded(alloc: Global, text: &[u8]) -> Result<Script, ScriptRefusal>
        ensures script { MatchResult result
            (λ script. guarded_script_of text.now ≡ Ok (items_of script.items))
            (λ fault. IsFaultOf fault (guarded_script_of text.now)) }
        ensures grammar { IfOk result
            (λ script. IsScriptBy true text.now (items_of script.items)) }
        ensures none { IfErr result (IsRefusedByGuards (lines text.now)) }
    {
        read_guarded_lines(alloc, text)
    }
}

fn read_lines(alloc: Global, text: &[u8]) -> Result<Script, ScriptRefusal>
    ensures { MatchResult result (λ script. script_of text.now ≡ Ok (items_of script.items))
        (λ fault. IsFaultOf fault (script_of text.now)) }
{
    let mut reader = ScriptReader::new(alloc);
    let mut rest = text;
    let mut number = 0;
    while let Some((line, more)) = split_line(rest) {
        number += 1;
        reader.read(alloc, number, line)?;
        rest = more;
    }
    reader.finish()
}

fn read_guarded_lines(alloc: Global, text: &[u8]) -> Result<Script, ScriptRefusal>
    ensures { MatchResult result (λ script. guarded_script_of text.now ≡ Ok (items_of script.items))
        (λ fault. IsFaultOf fault (guarded_script_of text.now)) }
{
    let mut reader = ScriptReader::new(alloc);
    let mut rest = text;
    let mut number = 0;
    while let Some((line, more)) = split_line(rest) {
        number += 1;
        let unguarded = reader.set_guard(alloc, number, line)?;
        reader.read(alloc, number, unguarded)?;
        rest = more;
    }
    reader.finish()
}

/// What was read so far.
#[derive(Drop)]
struct ScriptReader {
    items: Vec<Item>,
    /// The group that is open.
    group: Option<Item>,
    /// The guards that no item has yet.
    guards: Vec<Guard>,
}

impl ScriptReader {
    fn new(alloc: Global) -> ScriptReader
        ensures { reading_of result ≡ reading_with [] None [] }
    {
        ScriptReader {
            items: Vec::new(alloc),
            group: None,
            guards: Vec::new(alloc),
        }
    }

    /// Keeps the line if it is a guard, and returns what the grammar takes it as.
    fn set_guard<'a>(
        &mut self,
        alloc: Global,
        number: usize,
        line: &'a [u8],
    ) -> Result<&'a [u8], ScriptRefusal>
        ensures line { IfOk result
            (λ kept. kept.now ≡ unguarded_line (expected_in line.now) line.now) }
        ensures guards { OnOk result
            (reading_of self.new ≡ reading_with_guard number (expected_in line.now)
            (reading_of self.old)) }
        ensures memory { IfErr result (λ fault. fault ≡ ScriptRefusal.Memory) }
    {
        let Some((place, text)) = expected_in(line) else {
            return Ok(line);
        };
        let after = match &self.group {
            Some(group) => group.edits.len(),
            None => 0,
        };
        let text = LineText::from_slice(alloc, text)?;
        self.guards.push(Guard {
            line: number,
            place,
            text,
            after,
        })?;
        Ok(&[])
    }

    /// Adds an item, which gets the guards that no item has yet.
    fn close(&mut self, alloc: Global, item: Item) -> Result<(), ScriptRefusal>
        ensures { MatchResult result
            (λ _. reading_of self.new ≡ reading_with_item (items_of self.old.items)
            (applied_item item) (expectations_of self.old.guards))
            (λ fault. fault ≡ ScriptRefusal.Memory) }
    {
        let guards = mem::replace(&mut self.guards, Vec::new(alloc));
        self.group = None;
        self.items.push(Item { guards, ..item })?;
        Ok(())
    }

    fn read(&mut self, alloc: Global, number: usize, line: &[u8]) -> Result<(), ScriptRefusal>
        ensures { IsStep (step_of number (kind_of_script_line line.now) (reading_of self.old))
            (reading_of self.new) result }
    {
        match read_line(alloc, line)? {
            ScriptLine::Nothing => Ok(()),
            ScriptLine::Begin => self.begin(alloc, number),
            ScriptLine::End => self.end(alloc, number),
            ScriptLine::Edit(edit) => self.edit(alloc, number, edit),
            ScriptLine::Nonsense(flaw) => {
                Err(ScriptRefusal::Malformed(number, ScriptFlaw::NoEdit(flaw)))
            }
        }
    }

    fn begin(&mut self, alloc: Global, number: usize) -> Result<(), ScriptRefusal>
        ensures { IsStep (step_of number begin (reading_of self.old)) (reading_of self.new) result }
    {
        if self.group.is_some() {
            return Err(ScriptRefusal::Malformed(number, ScriptFlaw::BeginInGroup));
        }
        self.group = Some(Item::begun(alloc, number));
        Ok(())
    }

    fn end(&mut self, alloc: Global, number: usize) -> Result<(), ScriptRefusal>
        ensures { IsStep (step_of number end (reading_of self.old)) (reading_of self.new) result }
    {
        match self.group.take() {
            Some(group) => self.close(alloc, group),
            None => Err(ScriptRefusal::Malformed(number, ScriptFlaw::EndOutsideGroup)),
        }
    }

    fn edit(&mut self, alloc: Global, number: usize, change: Edit) -> Result<(), ScriptRefusal>
        ensures { IsStep (step_of number (edit (change_of change)) (reading_of self.old))
            (reading_of self.new) result }
    {
        match &mut self.group {
            Some(group) => group.join(number, change),
            None => {
                let mut item = Item::begun(alloc, number);
                item.join(number, change)?;
                self.close(alloc, item)
            }
        }
    }

    /// The items, at the end of the script.
    fn finish(self) -> Result<Script, ScriptRefusal>
        ensures { let at_end = items_at_end (items_of self.items) (open_of self.group)
            (expectations_of self.guards) in
            MatchResult result (λ script. at_end ≡ Ok (items_of script.items))
            (λ fault. at_end ≡ Err fault) }
    {
        let ScriptReader {
            items,
            group,
            guards,
        } = self;
        if let Some(group) = group {
            return Err(ScriptRefusal::Malformed(group.line, ScriptFlaw::NoEnd));
        }
        match guards.first() {
            Some(guard) => Err(ScriptRefusal::Malformed(guard.line, ScriptFlaw::NoneGuarded)),
            None => Ok(Script { items }),
        }
    }
}
