//! Tables of rows in code, as they stand on their pages and in their definitions.

/// A table of rows: the first whose test holds notes its number, does its effects in order, and
/// returns what stands after its `->`, or, without one, what the head has. If none fits, nothing is
/// done, and that is returned. A row's number is its place.
///
///     rows! { scene, Table::Wake, Next::Stay;
///         is_dwarf && is_closed => say(Role::WakeDwarf) -> Next::End(Ending::Killed);
///         otherwise => task.default(rules);
///     }
///
/// An effect is a method of the scene, or what takes the scene last: a method of something else, or
/// a function named by its module, such as `lamp::go_out(rules)`. A block in place of effects is
/// plain code: `{}` does nothing. A test can be a `let`, whose pattern names what the effects ask.
/// Between rows, `let` names what those below it ask, `from 8` gives the next row its number, and
/// what stands after `in` has rows of its own, and takes no number. `@after` has what follows each
/// number, so a table has at most 25 rows.
#[macro_export]
macro_rules! rows {
    (@effect $scene:ident $word:ident ($($arg:expr),*)) => { $scene.$word($($arg),*) };
    (@effect $scene:ident $of:ident.$word:ident($($arg:expr),*)) => { $of.$word($($arg,)* $scene) };
    (@effect $scene:ident $of:ident::$do:ident($($arg:expr),*)) => { $of::$do($($arg,)* $scene) };
    (@follows $then:expr) => { $then };
    (@follows $then:expr, $own:expr) => { $own };
    (@row ($scene:ident $table:expr, $then:expr) $number:literal
        $($word:ident $(.$of:ident)? $(::$item:ident)? ($($arg:expr),*)),+ $(-> $own:expr)?;) => {{
        $scene.note($table, $number);
        $($crate::rows!(@effect $scene $word $(.$of)? $(::$item)? ($($arg),*));)+
        $crate::rows!(@follows $then $(, $own)?)
    }};
    (@row ($scene:ident $table:expr, $then:expr) $number:literal
        $body:block $(-> $own:expr)?;) => {{
        $scene.note($table, $number);
        $body
        $crate::rows!(@follows $then $(, $own)?)
    }};
    (@rows ($scene:ident $table:expr, $then:expr) $number:tt) => { $then };
    (@rows $head:tt $number:tt from $first:tt; $($rows:tt)*) => {
        $crate::rows!(@rows $head $first $($rows)*)
    };
    (@rows $head:tt $number:tt let $name:ident = $value:expr; $($rows:tt)*) => {{
        let $name = $value;
        $crate::rows!(@rows $head $number $($rows)*)
    }};
    (@rows $head:tt $number:tt otherwise => $($row:tt)*) => {
        $crate::rows!(@row $head $number $($row)*)
    };
    (@rows $head:tt $number:tt in $call:expr;) => { $call };
    (@rows $head:tt $number:tt let $case:pat = $value:expr => $($rows:tt)*) => {
        $crate::rows!(@if [let $case = $value] $head $number $($rows)*)
    };
    (@rows $head:tt $number:tt $test:expr => $($rows:tt)*) => {
        $crate::rows!(@if [$test] $head $number $($rows)*)
    };
    (@if [$($test:tt)+] $head:tt $number:tt in $call:expr; $($rows:tt)*) => {
        if $($test)+ { $call } else { $crate::rows!(@rows $head $number $($rows)*) }
    };
    (@if [$($test:tt)+] $head:tt $number:tt $body:block $(-> $own:expr)?; $($rows:tt)*) => {
        if $($test)+ { $crate::rows!(@row $head $number $body $(-> $own)?;) }
        else { $crate::rows!(@after $number $head $($rows)*) }
    };
    (@if [$($test:tt)+] $head:tt $number:tt
        $($word:ident $(.$of:ident)? $(::$item:ident)? ($($arg:expr),*)),+ $(-> $own:expr)?;
        $($rows:tt)*) => {
        if $($test)+ { $crate::rows!(@row $head $number
            $($word $(.$of)? $(::$item)? ($($arg),*)),+ $(-> $own)?;) }
        else { $crate::rows!(@after $number $head $($rows)*) }
    };
    (@after 1 $head:tt $($rows:tt)*) => { $crate::rows!(@rows $head 2 $($rows)*) };
    (@after 2 $head:tt $($rows:tt)*) => { $crate::rows!(@rows $head 3 $($rows)*) };
    (@after 3 $head:tt $($rows:tt)*) => { $crate::rows!(@rows $head 4 $($rows)*) };
    (@after 4 $head:tt $($rows:tt)*) => { $crate::rows!(@rows $head 5 $($rows)*) };
    (@after 5 $head:tt $($rows:tt)*) => { $crate::rows!(@rows $head 6 $($rows)*) };
    (@after 6 $head:tt $($rows:tt)*) => { $crate::rows!(@rows $head 7 $($rows)*) };
    (@after 7 $head:tt $($rows:tt)*) => { $crate::rows!(@rows $head 8 $($rows)*) };
    (@after 8 $head:tt $($rows:tt)*) => { $crate::rows!(@rows $head 9 $($rows)*) };
    (@after 9 $head:tt $($rows:tt)*) => { $crate::rows!(@rows $head 10 $($rows)*) };
    (@after 10 $head:tt $($rows:tt)*) => { $crate::rows!(@rows $head 11 $($rows)*) };
    (@after 11 $head:tt $($rows:tt)*) => { $crate::rows!(@rows $head 12 $($rows)*) };
    (@after 12 $head:tt $($rows:tt)*) => { $crate::rows!(@rows $head 13 $($rows)*) };
    (@after 13 $head:tt $($rows:tt)*) => { $crate::rows!(@rows $head 14 $($rows)*) };
    (@after 14 $head:tt $($rows:tt)*) => { $crate::rows!(@rows $head 15 $($rows)*) };
    (@after 15 $head:tt $($rows:tt)*) => { $crate::rows!(@rows $head 16 $($rows)*) };
    (@after 16 $head:tt $($rows:tt)*) => { $crate::rows!(@rows $head 17 $($rows)*) };
    (@after 17 $head:tt $($rows:tt)*) => { $crate::rows!(@rows $head 18 $($rows)*) };
    (@after 18 $head:tt $($rows:tt)*) => { $crate::rows!(@rows $head 19 $($rows)*) };
    (@after 19 $head:tt $($rows:tt)*) => { $crate::rows!(@rows $head 20 $($rows)*) };
    (@after 20 $head:tt $($rows:tt)*) => { $crate::rows!(@rows $head 21 $($rows)*) };
    (@after 21 $head:tt $($rows:tt)*) => { $crate::rows!(@rows $head 22 $($rows)*) };
    (@after 22 $head:tt $($rows:tt)*) => { $crate::rows!(@rows $head 23 $($rows)*) };
    (@after 23 $head:tt $($rows:tt)*) => { $crate::rows!(@rows $head 24 $($rows)*) };
    (@after 24 $head:tt $($rows:tt)*) => { $crate::rows!(@rows $head 25 $($rows)*) };
    ($scene:ident, $table:expr; $($rows:tt)*) => { $crate::rows!($scene, $table, (); $($rows)*) };
    ($scene:ident, $table:expr, $then:expr; $($rows:tt)*) => {
        $crate::rows!(@rows ($scene $table, $then) 1 $($rows)*)
    };
}
