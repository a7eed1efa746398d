ghost use Rattle.std.specs.Prelude.{◌≡◌, ◌≤◌, [], ◌∷◌};
ghost use Rattle.turn_scene.specs.Bounds.{HasRoom, parts_of_row};
ghost use Rattle.turn_scene.specs.Scene.{scene_of, cave_of};
ghost use Rattle.cave_verbs.specs.Rows.{ByRows, DoneByRows, rank_of};
ghost use Rattle.turn_scene.specs.Rows.{Does, deed, noted};
ghost use Rattle.cave_world.specs.declared.tables.Table.TheVariants as table;
ghost use Rattle.cave_verbs.specs.Reading.{papers, not_seen, bare_read_rows, read_rows};

use crate::choice::{Meant, add_meant, only};
use crate::next::{Next, VerbStep};
use crate::task::Task;
use crate::verb::Verb;
use arrayvec::ArrayVec;
use cave_words::Named;
use cave_world::{CLUE_HINT, HintNumber, Part, Question, RowNotes, Table, WordLine};
use data_rows::Role;
use turn_scene::{Rules, Scene, is_carried, is_near, rows};

/// The papers that the player could mean.
fn papers<N: RowNotes>(rules: &Rules<'_>, task: &Task, scene: &Scene<'_, N>) -> Meant
    ensures { result.items
        ≡ papers (deed (cave_of rules.now) task.now (scene_of N.rows scene.now)) }
{
    let magazine = rules.thing(Named::Magazine);
    let tablet = rules.thing(Named::Tablet);
    let message = rules.thing(Named::Message);
    let mut papers = ArrayVec::new();
    add_meant(is_near(rules, scene.state, magazine), magazine, &mut papers);
    add_meant(is_near(rules, scene.state, tablet), tablet, &mut papers);
    add_meant(is_near(rules, scene.state, message), message, &mut papers);
    papers
}

/// READ without an object.
#[tactic(auto, using(crate::proofs::Falls::read_falls), unfolding(crate::specs::Reading::bare_read_rows))]
pub fn read_what_is_here<N: RowNotes>(
    rules: &Rules<'_>,
    task: Task,
    scene: &mut Scene<'_, N>,
) -> VerbStep
    requires { HasRoom parts_of_row scene.old }
    ensures row { ByRows N.rows (noted table.BareRead bare_read_rows) rules.now task scene.old
        scene.new result }
    ensures ranks { rank_of (cave_of rules.now) result ≤ 1 }
{
    rows! { scene, Table::BareRead, VerbStep::Done(Next::Keep);
        let in_the_dark = scene.state.dark(rules.cave, rules.thing(Named::Lamp));
        in_the_dark => task.ask_what(rules);
        let oyster = rules.thing(Named::Oyster);
        scene.state.closing.is_closed && is_carried(rules, scene.state, oyster)
            => {} -> VerbStep::GoOn(Verb::Read, oyster);
        let paper = only(papers(rules, &task, scene).as_slice());
        !paper.is_none() => {} -> VerbStep::GoOn(Verb::Read, paper);
        otherwise => task.ask_what(rules);
    }
}

impl Task {
    /// The game says that it doesn't see here what the word that was just read names.
    fn not_seen<N: RowNotes>(self, rules: &Rules<'_>, scene: &mut Scene<'_, N>)
        requires { HasRoom 1 scene.old }
        ensures { Does N.rows (not_seen ∷ []) 1 rules.now self scene.old scene.new }
    {
        scene.tell(Part::Word(WordLine::NotSeen, self.word));
    }
}

/// READ an object.
#[tactic(auto, unfolding(crate::specs::Reading::read_rows))]
pub fn read<N: RowNotes>(rules: &Rules<'_>, task: Task, scene: &mut Scene<'_, N>) -> Next
    requires { HasRoom parts_of_row scene.old }
    ensures row { DoneByRows N.rows (noted table.Read read_rows) rules.now task scene.old
        scene.new result }
{
    let x = task.object;
    rows! { scene, Table::Read, Next::Stay;
        let in_the_dark = scene.state.dark(rules.cave, rules.thing(Named::Lamp));
        in_the_dark => task.not_seen(rules);
        rules.is(x, Named::Magazine) => say(Role::ReadMagazine);
        rules.is(x, Named::Tablet) => say(Role::ReadTablet);
        rules.is(x, Named::Message) => say(Role::ReadMessage);
        let is_oyster_held = rules.is(x, Named::Oyster) && is_carried(rules, scene.state, x);
        is_oyster_held && scene.state.is_hint_taken(HintNumber::new(CLUE_HINT))
            => say(Role::ReadOyster);
        is_oyster_held && scene.state.closing.is_closed => {} -> Next::Ask(Question::Oyster);
        otherwise => task.default(rules);
    }
}
