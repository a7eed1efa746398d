ghost use Rattle.std.specs.Prelude.{◌≡◌, ◌<◌, ◌+◌, [], ◌∷◌};
ghost use Rattle.turn_scene.specs.Bounds.{GoesOnSaying};
ghost use Rattle.turn_scene.specs.Scene.{cave_of, scene_of};
ghost use Rattle.cave_world.specs.Limits as defined;
ghost use Rattle.turn_scene.specs.Rows.{Does, PlaysBy, deed};
ghost use Rattle.turn_dwarves.specs.Knives.{IsByUpTo, raider, throw_knife, threaten, dwarf_turn};
ghost use Rattle.turn_dwarves.specs.Knives.{no_attack, raid};

use crate::band::dwarf_of;
use crate::moving;
use crate::waking::AWAKE;
use cave_world::{Knife, PIRATE, RowNotes, Table};
use turn_scene::{Rules, Scene, rows};

/// The number of cases in the draw of whether a knife hits.
const KNIFE_CASES: u32 = 1000;

/// In how many of them it hits, for each degree of anger above that of dwarves that have just
/// woken.
const HITS_A_DEGREE: u32 = 95;

/// What all dwarves together do to the player.
#[derive(Clone, Copy, Debug, PartialEq, Eq)]
pub struct Attack {
    /// The dwarves at the player's place.
    pub dwarves: u32,
    /// The knives that were thrown.
    pub knives: u32,
    /// The knives that hit.
    pub hits: u32,
}

impl Attack {
    /// No dwarf does anything to the player.
    pub fn none() -> Attack
        ensures { result ≡ no_attack }
    {
        Attack {
            dwarves: 0,
            knives: 0,
            hits: 0,
        }
    }

    /// One more dwarf is with the player.
    fn count_dwarf(self) -> Attack
        requires { self.dwarves < defined.PIRATE }
        ensures { result ≡ record self { dwarves = self.dwarves + 1 } }
    {
        Attack {
            dwarves: self.dwarves + 1,
            knives: self.knives,
            hits: self.hits,
        }
    }

    /// One more knife was thrown.
    fn count_knife(self) -> Attack
        requires { self.knives < defined.PIRATE }
        ensures { result ≡ record self { knives = self.knives + 1 } }
    {
        Attack {
            dwarves: self.dwarves,
            knives: self.knives + 1,
            hits: self.hits,
        }
    }

    /// One more knife hit.
    fn count_hit(self) -> Attack
        requires { self.hits < defined.PIRATE }
        ensures { result ≡ record self { hits = self.hits + 1 } }
    {
        Attack {
            dwarves: self.dwarves,
            knives: self.knives,
            hits: self.hits + 1,
        }
    }
}

/// A dwarf moves and then may threaten the player. One that is gone does nothing.
#[tactic(auto, unfolding(crate::specs::Knives::dwarf_turn))]
fn dwarf_turn<N: RowNotes>(
    rules: &Rules<'_>,
    number: usize,
    attack: Attack,
    scene: &mut Scene<'_, N>,
) -> Attack
    requires number { number < defined.PIRATE }
    requires few { IsByUpTo number attack }
    ensures rows { PlaysBy N.rows dwarf_turn 0 rules.now (raider number attack)
        scene.old scene.new result }
    ensures one_more { IsByUpTo (number + 1) result }
{
    rows! { scene, Table::DwarfTurn;
        dwarf_of(scene.state, number).place.number() == 0 => {} -> attack;
        otherwise => moving::move_dwarf(rules, number) -> threaten(rules, number, attack, scene);
    }
}

/// What a dwarf does after it moved: one that sees the player and was here before throws a knife.
/// The angrier the dwarves are, the more often it hits.
#[tactic(auto, unfolding(crate::specs::Knives::threaten, crate::specs::Knives::threat_rows))]
fn threaten<N: RowNotes>(
    rules: &Rules<'_>,
    number: usize,
    attack: Attack,
    scene: &mut Scene<'_, N>,
) -> Attack
    requires number { number < defined.PIRATE }
    requires few { IsByUpTo number attack }
    ensures rows { PlaysBy N.rows threaten 0 rules.now (raider number attack)
        scene.old scene.new result }
    ensures one_more { IsByUpTo (number + 1) result }
{
    let dwarf = dwarf_of(scene.state, number);
    rows! { scene, Table::Threats;
        !dwarf.has_seen => {} -> attack;
        dwarf.last != scene.state.trail.here => {} -> attack.count_dwarf();
        let degree = scene.state.dwarves.anger.number().saturating_sub(AWAKE);
        scene.state.stream.draw(KNIFE_CASES) < HITS_A_DEGREE * u32::from(degree)
            => self::throw_knife(rules, number, attack)
            -> attack.count_dwarf().count_knife().count_hit();
        otherwise => self::throw_knife(rules, number, attack)
            -> attack.count_dwarf().count_knife();
    }
}

/// A knife is thrown, and lies where the player is, unless the game has said that knives vanish.
#[tactic(auto, unfolding(crate::specs::Knives::thrown_rows))]
fn throw_knife<N: RowNotes>(
    rules: &Rules<'_>,
    number: usize,
    attack: Attack,
    scene: &mut Scene<'_, N>,
)
    ensures rows { Does N.rows (throw_knife ∷ []) 0 rules.now (raider number attack)
        scene.old scene.new }
{
    rows! { scene, Table::KnifeThrown;
        matches!(scene.state.dwarves.knife, Knife::Vanished) => {};
        otherwise => { scene.state.dwarves.knife = Knife::At(scene.state.trail.here); };
    }
}

/// The dwarves before the pirate act, one after another.
pub fn raid<N: RowNotes>(rules: &Rules<'_>, scene: &mut Scene<'_, N>) -> Attack
    ensures raid { deed (cave_of rules.now) result (scene_of N.rows scene.new)
        ≡ raid (deed (cave_of rules.now) no_attack (scene_of N.rows scene.old)) }
    ensures says { GoesOnSaying 0 scene.old scene.new }
{
    let mut attack = Attack::none();
    for number in 0..PIRATE {
        attack = dwarf_turn(rules, number, attack, scene);
    }
    attack
}
