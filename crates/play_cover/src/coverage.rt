//! The report on things of several groups, some of which are covered.

ghost use Rattle.std.specs.Prelude.{◌≡◌, ◌≤◌, codes, [], ◌++◌, ◌^◌, length, IfOk, OnOk, not};
ghost use Rattle.play_cover.specs.Coverage.{Catalogue, all_entries, covered, covered_count};
ghost use Rattle.play_cover.specs.Coverage.{detail_text, groups_text, left, in_logs};
ghost use Rattle.play_cover.specs.Coverage.{left_count, logs_word, line_with, missing, names};
ghost use Rattle.play_cover.specs.Coverage.{never, present_count};
ghost use Rattle.std.specs.List.{filter};
ghost use Rattle.base_text.specs.Text.{Tells};
ghost use Rattle.check_tables.specs.Known.{entry_lines};
ghost use Rattle.check_tables.specs.Marks.{is_marked, mark};

use base_text::Text;
use check_tables::known::{Entries, KnownList, put_entries};
use check_tables::marks::{Mark, MarkSet};
use std::alloc::{AllocError, Global};

/// The word for this many logs.
fn logs_word(logs: usize) -> &'static str
    ensures { result.now ≡ logs_word logs }
{
    if logs == 1 { "log" } else { "logs" }
}

/// Writes how the last line of a report on this many logs ends.
pub fn put_in_logs(text: &mut Text, logs: usize)
    ensures { Tells (in_logs logs) text.old text.new }
{
    let word = logs_word(logs);
    write!(text, " in {logs} {word}\n");
}

/// Groups of things that may be covered.
pub trait Groups {
    /// A group.
    type Group: Copy;

    /// What the report says of them.
    ghost catalogue: { Self → Catalogue Self.Group };

    /// The groups, in the order of the report.
    fn groups(&self) -> &[Self::Group]
        ensures groups { result.now ≡ (catalogue self.now).groups }
        ensures few { length result.now ≤ 2 ^ 16 };

    /// The number by which the things of a group are marked.
    fn number(&self, group: Self::Group) -> usize
        ensures { result ≡ (catalogue self.now).number group };

    /// How the line of a group begins.
    fn heading(&self, group: Self::Group) -> &'static str
        ensures { result.now ≡ (catalogue self.now).heading group };

    /// The numbers of a group's things.
    fn present(&self, alloc: Global, group: Self::Group) -> Result<Vec<u16>, AllocError>
        ensures numbers { IfOk result (λ numbers.
            numbers.items ≡ (catalogue self.now).present group) }
        ensures few { IfOk result (λ numbers. length numbers.items ≤ 2 ^ 16) };

    /// Writes a blank and the name of a thing.
    fn put_name(&self, group: Self::Group, number: u16, text: &mut Text)
        ensures { Tells (codes " " ++ (catalogue self.now).name group number) text.old text.new };

    /// What the line of a thing that isn't covered begins with.
    fn indent(&self) -> &'static str
        ensures { result.now ≡ (catalogue self.now).indent };

    /// Writes the entry of a thing that isn't covered.
    fn put_entry(&self, group: Self::Group, number: u16, text: &mut Text)
        ensures { Tells ((catalogue self.now).words group number) text.old text.new };
}

/// The things of a group, as lists of what is known have them.
#[derive(Drop)]
struct InGroup<'a, T: Groups> {
    of: &'a T,
    group: T::Group,
}

impl<T: Groups> Entries for InGroup<'_, T> {
    type Thing = u16;

    ghost entry = { λ things. (T.catalogue things.of.now).words things.group };

    fn put_entry(&self, number: u16, text: &mut Text) {
        self.of.put_entry(self.group, number, text);
    }
}

/// What is written about a group: its counts with the names of what isn't covered, a line for each
/// of these that isn't known, or both.
#[derive(Clone, Copy, Debug, PartialEq, Eq)]
pub enum Detail {
    Counts,
    Missing,
    Both,
}

/// How many things of all groups are covered, how many there are, and how many aren't covered and
/// aren't known.
#[derive(Clone, Copy, Debug, PartialEq, Eq)]
pub struct CoverTotals {
    pub covered: usize,
    pub present: usize,
    pub left: usize,
}

/// How many of a group's things are covered, how many there are, which of them are missing, and
/// which of these aren't known.
#[derive(Drop)]
struct Found {
    covered: usize,
    present: usize,
    missing: Vec<u16>,
    left: Vec<u16>,
}

fn is_covered(marks: &MarkSet, group: usize, number: u16) -> bool
    ensures { result ≡ is_marked marks.now (mark group number) }
{
    marks.has(Mark {
        group,
        number: number as usize,
    })
}

fn count_covered(marks: &MarkSet, group: usize, numbers: &[u16]) -> usize
    ensures value { result
        ≡ length (filter (λ n. is_marked marks.now (mark group n)) numbers.now) }
    ensures within { result ≤ length numbers.now }
{
    numbers
        .iter()
        .filter(|number| is_covered(marks, group, **number))
        .count()
}

fn missing(
    alloc: Global,
    marks: &MarkSet,
    group: usize,
    numbers: &[u16],
) -> Result<Vec<u16>, AllocError>
    ensures value { IfOk result (λ found. found.items
        ≡ filter (λ n. not (is_marked marks.now (mark group n))) numbers.now) }
    ensures few { IfOk result (λ found. length found.items ≤ length numbers.now) }
{
    numbers
        .iter()
        .filter(|number| !is_covered(marks, group, **number))
        .copied()
        .collect(alloc)
}

/// What is found of a group.
#[tactic(auto, unfolding(crate::specs::Coverage::covered, crate::specs::Coverage::missing))]
fn find<T: Groups>(
    alloc: Global,
    of: &T,
    marks: &MarkSet,
    known: &KnownList,
    group: T::Group,
) -> Result<Found, AllocError>
    ensures covered { IfOk result (λ found. found.covered
        ≡ length (covered (T.catalogue of.now) (is_marked marks.now) group)) }
    ensures present { IfOk result (λ found. found.present
        ≡ length ((T.catalogue of.now).present group)) }
    ensures missing { IfOk result (λ found. found.missing.items
        ≡ missing (T.catalogue of.now) (is_marked marks.now) group) }
    ensures left { IfOk result (λ found. found.left.items
        ≡ left (T.catalogue of.now) (is_marked marks.now) known.now group) }
    ensures few { IfOk result (λ found. (found.covered ≤ found.present)
        × (length found.left.items ≤ found.present) × (found.present ≤ 2 ^ 16)) }
{
    let numbers = of.present(alloc, group)?;
    let number = of.number(group);
    let covered = count_covered(marks, number, &numbers);
    let missing = missing(alloc, marks, number, &numbers)?;
    let left = known.unknown(alloc, &InGroup { of, group }, &missing)?;
    Ok(Found {
        covered,
        present: numbers.len(),
        missing,
        left,
    })
}

fn put_names<T: Groups>(text: &mut Text, of: &T, group: T::Group, numbers: &[u16])
    ensures { Tells (names (T.catalogue of.now) group numbers.now) text.old text.new }
{
    for number in numbers {
        of.put_name(group, *number, text);
    }
}

/// Writes the names of what isn't covered, if there is anything.
fn put_never<T: Groups>(text: &mut Text, of: &T, group: T::Group, missing: &[u16])
    ensures { Tells (never (T.catalogue of.now) group missing.now) text.old text.new }
{
    if !missing.is_empty() {
        text.put(b", never");
        put_names(text, of, group, missing);
    }
}

/// Writes the line of a group.
fn put_line<T: Groups>(text: &mut Text, of: &T, group: T::Group, found: &Found)
    ensures { Tells (line_with (T.catalogue of.now) group found.now.covered found.now.present
        found.now.missing.items) text.old text.new }
{
    let heading = of.heading(group);
    let (covered, present) = (found.covered, found.present);
    write!(text, "{heading}: {covered} of {present}");
    put_never(text, of, group, &found.missing);
    text.put(b"\n");
}

/// Writes what is told about a group.
fn put_detail<T: Groups>(text: &mut Text, of: &T, detail: Detail, group: T::Group, found: &Found)
    ensures { Tells (detail_text (T.catalogue of.now) detail group (line_with (T.catalogue of.now)
        group found.now.covered found.now.present found.now.missing.items) found.now.left.items)
        text.old text.new }
{
    let things = InGroup { of, group };
    match detail {
        Detail::Counts => put_line(text, of, group, found),
        Detail::Missing => put_entries(text, &things, of.indent(), &found.left),
        Detail::Both => {
            put_line(text, of, group, found);
            put_entries(text, &things, of.indent(), &found.left);
        }
    }
}

/// Writes what is told about all groups, and returns how many of their things are covered, how many
/// there are, and how many are left.
pub fn put_groups<T: Groups>(
    text: &mut Text,
    of: &T,
    marks: &MarkSet,
    known: &KnownList,
    detail: Detail,
) -> Result<CoverTotals, AllocError>
    ensures told { OnOk result (Tells (groups_text (T.catalogue of.now) (is_marked marks.now)
        known.now detail) text.old text.new) }
    ensures covered { IfOk result (λ totals. totals.covered
        ≡ covered_count (T.catalogue of.now) (is_marked marks.now)) }
    ensures present { IfOk result (λ totals.
        totals.present ≡ present_count (T.catalogue of.now)) }
    ensures left { IfOk result (λ totals. totals.left
        ≡ left_count (T.catalogue of.now) (is_marked marks.now) known.now) }
    ensures few { IfOk result (λ totals. totals.left ≤ 2 ^ 32) }
{
    let mut totals = CoverTotals {
        covered: 0,
        present: 0,
        left: 0,
    };
    for group in of.groups() {
        let found = find(text.alloc(), of, marks, known, *group)?;
        put_detail(text, of, detail, *group, &found);
        totals.covered += found.covered;
        totals.present += found.present;
        totals.left += found.left.len();
    }
    Ok(totals)
}

/// Writes the entries of what isn't covered of a group, a line each.
#[tactic(auto, unfolding(crate::specs::Coverage::missing))]
fn put_missing_entry_lines<T: Groups>(
    text: &mut Text,
    of: &T,
    marks: &MarkSet,
    group: T::Group,
) -> Result<(), AllocError>
    ensures { OnOk result (Tells (entry_lines ((T.catalogue of.now).words group) []
        (missing (T.catalogue of.now) (is_marked marks.now) group)) text.old text.new) }
{
    let numbers = of.present(text.alloc(), group)?;
    let number = of.number(group);
    let found = missing(text.alloc(), marks, number, &numbers)?;
    put_entries(text, &InGroup { of, group }, "", &found);
    Ok(())
}

/// Writes the entries of all things that aren't covered, a line each.
pub fn put_all_entries<T: Groups>(
    text: &mut Text,
    of: &T,
    marks: &MarkSet,
) -> Result<(), AllocError>
    ensures { OnOk result
        (Tells (all_entries (T.catalogue of.now) (is_marked marks.now)) text.old text.new) }
{
    for group in of.groups() {
        put_missing_entry_lines(text, of, marks, *group)?;
    }
    Ok(())
}
