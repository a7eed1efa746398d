//! A cave: the tables of a database, and what its bindings say.
ghost use Rattle.std.specs.Prelude.{◌≡◌, All, option_map, map, length, nat_lt, IfOk, IfErr, IfSome};
ghost use Rattle.std.specs.Prelude.{MatchOption, MatchResult, None, unwrap_or, []};
ghost use Rattle.std.specs.Str.Lines.{lines};
ghost use Rattle.std.specs.FinMap.{get};
ghost use Rattle.base_lines.specs.Limits.{MAX_INPUT_BYTES};
ghost use Rattle.cave_data.specs.CaveView.{name_of, look_of, ways_from, cond_of, placement_of};
ghost use Rattle.cave_data.specs.CaveView.{default_message, CaveView, class_of};
ghost use Rattle.cave_data.specs.Bindings.{default_place};
ghost use Rattle.cave_data.specs.Bindings as defined;
ghost use Rattle.cave_data.specs.Faults.{FaultIs, no_memory, IsFirstFault};
ghost use Rattle.cave_data.specs.Cave.{Finished};
ghost use Rattle.cave_data.specs.Laws.{IsLetters, IsMessage, IsPlace, IsPlacementInRange, HasOnly};
ghost use Rattle.cave_data.specs.Laws.{AreInRange, KeepsLaws};
ghost use Rattle.cave_data.specs.Steps.{ReportsLowest, first_fault};
ghost use Rattle.cave_data.specs.Reads.{AreValidInputs, Reads, fault, size_fault};
ghost use Rattle.cave_data.specs.Printing.{rating};
ghost use Rattle.cave_data.specs.Tables.{IsAbove};
ghost use Rattle.data_rows.specs.RowViews.{going};
ghost use Rattle.data_rows.specs.Role.{role_number};
ghost use Rattle.data_rows.specs.PlaceRole.{place_number};

use crate::bindings::{Bindings, read_bindings};
use crate::classes::{Classes, Rating};
use crate::database::read_database;
use crate::reader::Tables;
use crate::tables::ByNumber;
use crate::texts::Texts;
use crate::ways::Ways;
use crate::words::WordTable;
use base_lines::limits::is_large_input;
use base_lines::numbers::{LAST_NAMED, LAST_PROP};
use data_rows::rows::Placement;
use data_rows::{Cause, CaveError, FaultSite, Hint, PlaceRole, Role, Row};
use std::alloc::Global;
use std::marker::Model;

/// The place where a game begins, if bindings don't say.
pub const DEFAULT_START: u16 = 1;

/// The place where treasures are to be brought, if bindings don't say.
pub const DEFAULT_BUILDING: u16 = 3;

/// The last place outside the cave, if bindings don't say.
pub const DEFAULT_OUTSIDE: u16 = 8;

/// The first place of the cave's depths, if bindings don't say.
pub const DEFAULT_DEEP: u16 = 15;

/// How many letters of a word count, if bindings don't say.
const DEFAULT_LETTERS: u8 = 5;

/// A cave that was read from a database and its bindings.
#[derive(Drop)]
pub struct Cave {
    long: Texts,
    short: Texts,
    travel: Ways,
    words: WordTable,
    objects: Texts,
    messages: Texts,
    placements: ByNumber<Placement>,
    defaults: ByNumber<u16>,
    conditions: ByNumber<u32>,
    classes: Classes,
    hints: ByNumber<Hint>,
    roles: ByNumber<u16>,
    places: ByNumber<u16>,
    letters: u8,
}

/// The place that has the role if bindings don't say.
fn default_place(place: PlaceRole) -> Option<u16>
    ensures value { result ≡ default_place (place_number place) }
    ensures within { IfSome result IsPlace }
{
    match place {
        PlaceRole::Start => Some(DEFAULT_START),
        PlaceRole::Building => Some(DEFAULT_BUILDING),
        PlaceRole::Outside => Some(DEFAULT_OUTSIDE),
        PlaceRole::Deep => Some(DEFAULT_DEEP),
        _ => None,
    }
}

impl Model for Cave {
    ghost use Rattle.std.specs.Prelude.{map};
    ghost use Rattle.cave_data.specs.CaveView.{CaveView, cave_code};
    ghost use Rattle.cave_data.specs.Printing.{printed_texts, printed_class};
    ghost use Rattle.cave_data.specs.Bindings.{with_defaults};
    ghost use Rattle.cave_data.specs.Laws.{IsLetters, IsMessage, IsPlace, HasOnly};
    ghost use Rattle.cave_data.specs.Laws.{IsPlacementInRange};

    ghost Value = { CaveView };

    ghost coded = { cave_code };

    ghost view = { λ c. record {
      long = printed_texts c.long.texts;
      short = printed_texts c.short.texts;
      travel = c.travel.ways;
      words = c.words;
      objects = printed_texts c.objects.texts;
      messages = printed_texts c.messages.texts;
      placements = c.placements;
      defaults = c.defaults;
      conditions = c.conditions;
      classes = map printed_class c.classes;
      hints = c.hints;
      roles = c.roles;
      places = with_defaults c.places;
      letters = c.letters;
    } };

    ghost invariant = { λ c. IsLetters c.letters
        × HasOnly IsMessage c.roles
        × HasOnly IsPlace c.places
        × HasOnly IsPlacementInRange c.placements };
}

fn is_too_large(input: &[u8]) -> bool
    ensures { result ≡ nat_lt MAX_INPUT_BYTES (length input.now) }
{
    is_large_input(input.len())
}

/// How many letters count.
fn letters_of(bound: Option<u16>) -> u8
    requires { IfSome bound IsLetters }
    ensures value { result ≡ unwrap_or bound defined.DEFAULT_LETTERS }
    ensures range { IsLetters result }
{
    match bound {
        Some(letters) => letters as u8,
        None => DEFAULT_LETTERS,
    }
}

/// The cave that tables and bindings make.
fn finish(tables: Tables, bindings: Bindings) -> Cave
    requires bindings { AreInRange bindings }
    requires placements { HasOnly IsPlacementInRange tables.placements }
    ensures { Finished tables bindings result }
{
    Cave {
        long: tables.long,
        short: tables.short,
        travel: tables.ways,
        words: tables.words,
        objects: tables.objects,
        messages: tables.messages,
        placements: tables.placements,
        defaults: tables.defaults,
        conditions: tables.conditions,
        classes: tables.classes,
        hints: tables.hints,
        roles: bindings.roles,
        places: bindings.places,
        letters: letters_of(bindings.letters),
    }
}

/// The cave, or the first fault.
fn read_cave(alloc: Global, database: &[u8], bindings: &[u8]) -> Result<Cave, CaveError>
    ensures size { MatchOption (size_fault database.now bindings.now) (Unit {0})
        (λ e. result ≡ Err e) }
    ensures found { IfOk result (λ c. Reads database.now bindings.now c) }
    ensures fault { IfErr result (λ e. FaultIs e (fault database.now bindings.now)) }
{
    if is_too_large(database) {
        return Err(CaveError {
            cause: Cause::TooLarge,
            line: 0,
            site: FaultSite::Database,
        });
    }
    if is_too_large(bindings) {
        return Err(CaveError {
            cause: Cause::TooLarge,
            line: 0,
            site: FaultSite::Bindings,
        });
    }
    let tables = read_database(alloc, database)?;
    let bindings = read_bindings(alloc, bindings)?;
    Ok(finish(tables, bindings))
}

#[tactic(auto, using(crate::proofs::CaveLemmas::gets))]
impl Cave {
    /// Reads a cave from its database and its bindings, or returns the first fault: a size over
    /// 1,048,576 bytes, then the first faulty line, the database's before the bindings'.
    pub fn read(alloc: Global, database: &[u8], bindings: &[u8]) -> Result<Cave, CaveError>
        // A size over the limit is reported with any amount of memory.
        ensures size { MatchOption (size_fault database.now bindings.now) (Unit {0})
            (λ e. result ≡ Err e) }
        ensures found { IfOk result (λ c. Reads database.now bindings.now c) }
        ensures fault { IfErr result (λ e. FaultIs e (fault database.now bindings.now)) }
        // If a line of the database has several faults, its cause is the one with the lowest
        // number.
        ensures lowest { ReportsLowest }
        // The lines before the first faulty one begin a database.
        ensures first { IfSome (first_fault [] (lines database.now))
            (IsFirstFault (lines database.now)) }
        // There is no fault exactly if the inputs are a database and its bindings.
        ensures right { (AreValidInputs database.now bindings.now
            → fault database.now bindings.now ≡ None)
            × (fault database.now bindings.now ≡ None → AreValidInputs database.now bindings.now) }
        ensures laws { IfOk result (λ c. KeepsLaws database.now c) }
        // A cave that the inputs describe is read, unless memory runs out.
        ensures only { (c : CaveView) → Reads database.now bindings.now c
            → MatchResult result (λ d. d ≡ c) (λ e. e ≡ no_memory) }
    {
        read_cave(alloc, database, bindings)
    }

    /// The long text of the place, each of its lines with its line feed.
    pub fn long(&self, place: u16) -> Option<&[u8]>
        ensures { option_map (λ x. x.now) result ≡ get self.now.long place }
    {
        self.long.printed(place)
    }

    /// The short text of the place.
    pub fn short(&self, place: u16) -> Option<&[u8]>
        ensures { option_map (λ x. x.now) result ≡ get self.now.short place }
    {
        self.short.printed(place)
    }

    /// The message of the number.
    pub fn message(&self, number: u16) -> Option<&[u8]>
        ensures { option_map (λ x. x.now) result ≡ get self.now.messages number }
    {
        self.messages.printed(number)
    }

    /// The inventory text of the object.
    pub fn name(&self, object: u16) -> Option<&[u8]>
        ensures { option_map (λ x. x.now) result ≡ name_of self.now object }
    {
        if object > LAST_NAMED {
            return None;
        }
        self.objects.printed(object)
    }

    /// The text of the object as it lies there with that prop.
    pub fn look(&self, object: u16, prop: u16) -> Option<&[u8]>
        ensures { option_map (λ x. x.now) result ≡ look_of self.now object prop }
    {
        if object == 0 || object > LAST_NAMED || prop > LAST_PROP {
            return None;
        }
        self.objects.printed(100 * object + prop)
    }

    /// The ways out of the place, in the order of the file.
    pub fn travel(&self, place: u16) -> &[Row]
        ensures value { map going result.now ≡ ways_from self.now place }
        ensures place { All (λ row. row.place ≡ place) result.now }
    {
        self.travel.at(place)
    }

    /// The bits that are set for the place, as the bits of a number.
    pub fn cond(&self, place: u16) -> u32
        ensures { result ≡ cond_of self.now place }
    {
        self.conditions.get(place).unwrap_or(0)
    }

    /// The first place of the object and its second, or (0, 0) if no row gives them.
    pub fn placement(&self, object: u16) -> (u16, i16)
        ensures first { result.0 ≡ (placement_of self.now object).first }
        ensures second { result.1 ≡ (placement_of self.now object).second }
        ensures within { IsPlacementInRange (record { first = result.0; second = result.1 }) }
    {
        match self.placements.get(object) {
            Some(placement) => (placement.first, placement.second),
            None => (0, 0),
        }
    }

    /// The message that the action prints if no rule says more, or 0.
    pub fn default_of(&self, action: u16) -> u16
        ensures { result ≡ default_message self.now action }
    {
        self.defaults.get(action).unwrap_or(0)
    }

    /// The hint of the number.
    pub fn hint(&self, number: u16) -> Option<Hint>
        ensures { result ≡ get self.now.hints number }
    {
        self.hints.get(number)
    }

    /// A number greater than that of any hint.
    pub fn hint_end(&self) -> usize
        ensures { IsAbove result self.now.hints }
    {
        self.hints.end()
    }

    /// The message that bindings give the role.
    pub fn role(&self, role: Role) -> Option<u16>
        ensures value { result ≡ get self.now.roles (role_number role) }
        ensures within { IfSome result IsMessage }
    {
        self.roles.get(role.number())
    }

    /// The place that has the role, from bindings, or if they don't say.
    pub fn place(&self, place: PlaceRole) -> Option<u16>
        ensures value { result ≡ get self.now.places (place_number place) }
        ensures within { IfSome result IsPlace }
    {
        self.places.get(place.number()).or(default_place(place))
    }

    /// The words in the order of the file.
    pub fn words(&self) -> &WordTable
        ensures { result.now ≡ self.now.words }
    {
        &self.words
    }

    /// The class of the score: the first row whose bound is not below the score.
    pub fn class_of(&self, score: u32) -> Option<Rating<'_>>
        ensures { option_map rating result ≡ class_of self.now score }
    {
        self.classes.class_of(score)
    }

    /// How many letters of a word count.
    pub fn letters(&self) -> u8
        ensures value { result ≡ self.now.letters }
        ensures range { IsLetters result }
    {
        self.letters
    }
}
