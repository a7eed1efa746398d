//! The tables of the rules, as the pages have them, made by `tools/check/rule-words --write`.

ghost use Rattle.std.specs.Prelude.{◌≡◌, ◌<◌, length, map};
ghost use Rattle.play_cover.specs.RuleTables.{row_words, table_name, tables};
ghost use Rattle.play_cover.specs.RuleTables as defined;

use cave_world::Table;

/// Hands all tables, in the order of the pages, to a macro: of each its variant, what it is called,
/// and when each of its rows applies, in words.
macro_rules! all_tables {
    ($write:ident $($asked:ident)?) => {
        $write! {
            $($asked)?
            Asking "asking" ["ScoreQuit is asked", "otherwise"]
            Questions "questions"
                ["Welcome", "Quit", "ScoreQuit", "Die", "Hint", "Take", "Oyster", "Dragon"]
            Die "death question"
                ["no death was counted before", "one was counted before", "otherwise"]
            Replies "replies" ["yes", "no", "otherwise"]
            Yes "yes" ["Welcome", "Quit", "ScoreQuit", "Die", "Hint", "Take", "Oyster", "Dragon"]
            No "no" ["Welcome", "Quit", "ScoreQuit", "Die", "Hint", "Take", "Oyster", "Dragon"]
            Lair "lair"
                ["both places of DRAGON are places", "the first place of DRAGON is a place",
                "the second place of DRAGON is a place", "otherwise"]
            Gathering "gathering" ["the first half of x is at a place of DRAGON"]
            Death "death" ["the cave is closing", "otherwise"]
            Reborn "words of revival"
                ["no death was counted before", "one was counted before", "otherwise"]
            Revival "revival" ["it is the third death", "otherwise"]
            LampPutOut "lamp put out" ["LAMP is carried"]
            Fall "belongings" ["x is LAMP", "x is another object"]
            Clocks "clocks"
                ["the first clock goes, and is at 1", "the first clock goes",
                "the second clock goes, and is at 1 in a cave that can be closed",
                "the second clock goes"]
            ClosingBear "bear at the closing" ["BEAR has prop 3", "otherwise"]
            Panic "panic" ["the player panicked before", "the cave is closed", "otherwise"]
            Burning "burning" ["LAMP has prop 1"]
            Lamp "lamp"
                ["30 turns or fewer, fresh BATTERIES and LAMP are at hand",
                "exactly 0 turns, LAMP is at hand", "exactly 0 turns",
                "the lamp went out, and the player is at a place up to outside",
                "30 turns or fewer, no warning so far, LAMP is at hand"]
            LampWarning "lamp warning"
                ["BATTERIES have prop 1", "BATTERIES are nowhere", "otherwise"]
            Hands "closed cave, carried"
                ["the cave is closed, OYSTER is in the hands, its prop is below 0",
                "the cave is closed"]
            ObjectShown "object shown" ["x is in the hands, and its prop v is below 0"]
            HintTurns "hint turns"
                ["a hint of the cave, not taken, counted, out of its area",
                "a hint of the cave, not taken, in its area"]
            Offers "hint offers"
                ["the hint is due, and a question is open or the game has ended", "the hint is due"]
            HintGuards "hint guards"
                ["hint 4, GRATE has prop 0, and KEYS aren't at hand",
                "hint 5, BIRD is at hand and the last object, and ROD is carried",
                "hint 6, SNAKE is at hand, and BIRD isn't",
                "hint 7, nothing at the last three places, two objects or more in the hands",
                "hint 8, EMERALD has a prop other than -1, PYRAMID has prop -1",
                "a hint from 9 to 20", "hint 5, not offered", "otherwise"]
            HintGiven "hint given"
                ["the cave has the hint, and the lamp burns more than 30 turns",
                "the cave has the hint"]
            Classes "classes"
                ["the score has a class, and a row follows it in the file", "the score has a class",
                "otherwise"]
            Anger "anger"
                ["asleep (0), and the player is at deep or a higher place", "asleep (0)",
                "stirring (1)", "awake (2 or more)"]
            Waking "waking"
                ["the player is at a place below deep", "in 95 of 100 cases", "otherwise"]
            Leaving "dwarf leaves" ["in 50 of 100 cases"]
            Apart "dwarf kept apart"
                ["the dwarf is where the player is, and dwarfalt is bound", "otherwise"]
            DwarfTurn "dwarf turn" ["the dwarf is gone", "otherwise"]
            DwarfWays "dwarf ways"
                ["no place is offered", "more than 19 places are offered", "otherwise"]
            DwarfSight "dwarf sight"
                ["the dwarf had seen the player, who is at deep or a higher place",
                "the dwarf chose the place of the player",
                "the dwarf was at the place of the player before", "otherwise"]
            Threats "knife throws"
                ["the dwarf doesn't see the player",
                "the dwarf wasn't at the place of the player before it moved",
                "a draw of 1,000 is below 95 times the anger above 2", "otherwise"]
            KnifeThrown "thrown knife" ["it was said that knives vanish", "otherwise"]
            DwarvesHere "lines of dwarves"
                ["no dwarf sees the player", "one dwarf sees the player", "otherwise"]
            Provoked "provoked" ["a knife was thrown, and the anger is 2"]
            Knives "lines of knives"
                ["no knife was thrown", "one knife was thrown, and hit", "one knife was thrown",
                "several knives were thrown, and none hit",
                "several knives were thrown, and one hit", "otherwise"]
            PirateTurn "pirate turn" ["the pirate is gone", "otherwise"]
            Chase "chase"
                ["the pirate sees the player, who is at chest",
                "the pirate sees the player, and CHEST was seen", "the pirate sees the player"]
            Pirate "pirate"
                ["a treasure that it takes is carried, and MESSAGE is nowhere",
                "a treasure that it takes is carried",
                "no treasure at hand, one left, CHEST nowhere, lit LAMP at hand",
                "the pirate isn't where it was before, in 20 of 100 cases"]
            Theft "theft"
                ["x is PYRAMID, and the player is at its home or that of EMERALD", "x is carried",
                "x is here and not fixed"]
            KnifeForgotten "knife left behind" ["a knife lies at another place than the player"]
            Words "reading 1: line"
                ["two words, after SAY alone", "one word, after SAY alone", "two words", "one word"]
            TwoWords "reading 2: pair"
                ["ENTER and another",
                "WATER or OIL and PLANT or DOOR, and that PLANT or DOOR is here", "otherwise"]
            WordEntered "word after ENTER"
                ["STREAM or WATER, at a lake of WATER", "STREAM or WATER", "any other word"]
            WordAlone "reading 3: single word"
                ["isn't one of the cave", "is a motion", "is a special word", "is an object",
                "is SAY, action 3", "is another action"]
            WordBefore "reading 4: first word"
                ["isn't one of the cave", "is a motion", "is a special word", "is an object",
                "is SAY, action 3", "is another action"]
            UnknownWord "unknown word"
                ["the second draw happens", "the first draw happens", "otherwise"]
            ObjectWord "word for an object"
                ["k is here, or it is carried", "k is GRATE, and the player is at place 1, 4 or 7",
                "k is GRATE, and the player is at a place from 10 to 14",
                "k is DWARF, and a dwarf is here",
                "k is what is in BOTTLE, which is at hand, or what the lake is of",
                "k is PLANT, PLANT2 is here, and its prop isn't 0",
                "k is KNIFE, and a knife was thrown here", "k is ROD, and ROD2 is at hand",
                "the verb is FIND or INVENTORY, and no word comes after W", "otherwise"]
            HalfCommand "half commands"
                ["asks \"W what?\"", "asks \"What do you want to do with the W?\"",
                "has an unknown word where it is read", "any other command"]
            WordAloud "word aloud" ["motion 62, 65 or 71", "FOO, action 25", "otherwise"]
            OwnMotions "motions"
                ["motion 21", "motion 57, look round",
                "motion 67, the cave, at a place below outside", "motion 67, the cave",
                "motion 8, back", "otherwise"]
            Enough "enough" ["it counts as said less than three times"]
            BackFrom "way back"
                ["motion is forced at the place where the player came from", "otherwise"]
            Back "BACK"
                ["the place that is sought is the one where the player is",
                "a row leads to the place that is sought",
                "a row leads to it through a forced place", "otherwise"]
            NoMotion "motions without a row"
                ["motion 29, 30 or 43 to 50", "motion 7, 36 or 37", "motion 11 or 19",
                "motion 62 or 65", "motion 17", "otherwise"]
            Squeeze "narrow passage"
                ["one of its ends isn't bound, or the player is at neither",
                "nothing is in the hands, or EMERALD alone", "otherwise"]
            Bridge "bridge"
                ["there is no bridge", "TROLL has prop 1",
                "BEAR isn't carried, once TROLL has let the player pass", "otherwise"]
            Toll "toll" ["TROLL has prop 0"]
            SpicesLost "spices lost" ["SPICES have a prop below 0"]
            Blocking "blocked ways"
                ["the cave is closing, and the place is from 1 to outside",
                "a dwarf that has seen the player was at the place before"]
            Arrival "arrival"
                ["the place is 0", "motion is forced at the place", "the place has bit 3"]
            Hits "knife deaths" ["a knife hits", "otherwise"]
            Stops "described again" ["motion is forced at the place", "otherwise"]
            Description "description"
                ["it isn't dark", "it was dark before, in 35 of 100 cases", "otherwise"]
            BearFollows "bear follows" ["BEAR is in the hands"]
            PlaceText "text of a place"
                ["the game is brief, and the place has no visits",
                "the game isn't brief, and the visits are a multiple of 5, 0 among them",
                "the place has no short text", "otherwise"]
            Hollow "hollow" ["at y2, the cave isn't closing, in 25 of 100 cases"]
            ObjectHere "object at a place"
                ["it is STEPS, and GOLD is in the hands", "it is unseen, and the cave is closed",
                "it is unseen, and is RUG or CHAIN", "it is unseen", "otherwise"]
            LastTreasure "last treasure"
                ["all that are left to be seen count as lost, and some are left"]
            ObjectText "text of an object" ["it is STEPS at their second place", "otherwise"]
            Vessel "put: vessel" ["x is what is in the bottle", "otherwise"]
            CagedBird "put: caged bird" ["x is CAGE, and BIRD has a prop other than 0"]
            FreeBird "put: free bird" ["x is BIRD"]
            LayDown "lay down" ["x is carried"]
            SnakeLoss "lost to the snake" ["the first half of SNAKE is at home"]
            BareTake "TAKE alone"
                ["exactly one half is in the list of this place, and no dwarf is here", "otherwise"]
            Take "TAKE"
                ["x is carried", "x is fixed, is PLANT, and its prop is 0 or less",
                "x is fixed, is BEAR, and its prop is 1",
                "x is fixed, is CHAIN, and BEAR has a prop other than 0", "x is fixed",
                "x is in the bottle, and BOTTLE is at hand",
                "x is WATER or OIL, BOTTLE is carried, and its prop is 1",
                "x is WATER or OIL, and BOTTLE is carried", "x is WATER or OIL",
                "seven objects or more are in the hands",
                "x is BIRD, its prop is 0, and ROD is carried",
                "x is BIRD, its prop is 0, and CAGE isn't carried", "x is BIRD, and its prop is 0",
                "x is BIRD", "x is CAGE, and BIRD has a prop other than 0", "otherwise"]
            Drop "DROP"
                ["x is ROD and isn't carried, but ROD2 is", "x isn't carried",
                "x is BIRD, SNAKE is at hand, and the cave is closed",
                "x is BIRD, and SNAKE is at hand", "x is COINS, and VENDING is at hand",
                "x is BIRD, DRAGON is here, and its prop is 0", "x is BEAR, and TROLL is here",
                "x is VASE, away from the home of PILLOW, and PILLOW is here",
                "x is VASE, away from the home of PILLOW", "otherwise"]
            BareOpen "OPEN/LOCK alone"
                ["it is meant for something, and CHAIN is at hand", "it is meant for something",
                "CHAIN is at hand", "otherwise"]
            Open "OPEN/LOCK"
                ["x is CLAM or OYSTER, to LOCK", "x is CLAM, and TRIDENT isn't carried",
                "x is OYSTER, and TRIDENT isn't carried", "x is CLAM, which is carried",
                "x is OYSTER, which is carried", "x is CLAM", "x is OYSTER",
                "x is DOOR, and its prop is 1", "x is DOOR", "x is CAGE", "x is KEYS",
                "x is GRATE or CHAIN, and KEYS aren't at hand",
                "x is GRATE, and the cave is closing", "x is GRATE, to OPEN, and its prop is 0",
                "x is GRATE, to OPEN", "x is GRATE, and its prop is 0", "x is GRATE",
                "x is CHAIN, to OPEN, and its prop is 0",
                "x is CHAIN, to OPEN, and BEAR's prop is 0",
                "x is CHAIN, to OPEN, and BEAR's prop is 3", "x is CHAIN, to OPEN",
                "x is CHAIN, away from its home", "x is CHAIN, and its prop is other than 0",
                "x is CHAIN", "otherwise"]
            On "ON"
                ["LAMP isn't at hand", "the lamp went out", "it was dark as the turn began",
                "otherwise"]
            Off "OFF" ["LAMP isn't at hand", "otherwise"]
            Darkened "OFF, dark" ["it is dark now"]
            Wave "WAVE"
                ["x isn't carried, and it isn't ROD with ROD2 carried",
                "x is ROD, FISSURE is here, ROD is carried, and the cave isn't closing",
                "otherwise"]
            BareKill "KILL alone"
                ["there are two foes or more", "there is one foe", "BIRD and CLAM are both prey",
                "BIRD or CLAM is prey", "otherwise"]
            Kill "KILL"
                ["x is BIRD, and the cave is closed", "x is BIRD", "x is CLAM or OYSTER",
                "x is SNAKE", "x is DWARF, and the cave is closed", "x is DWARF",
                "x is DRAGON, and its prop is 0", "x is DRAGON", "x is TROLL",
                "x is BEAR, and its prop is 0", "x is BEAR, and its prop is 3", "x is BEAR",
                "otherwise"]
            Pour "POUR"
                ["by itself or with BOTTLE, and nothing is in the bottle",
                "what is poured isn't carried", "what is poured is neither WATER nor OIL",
                "DOOR is here, and OIL is poured", "DOOR is here",
                "PLANT is here, and WATER is poured", "PLANT is here", "otherwise"]
            BareEat "EAT alone" ["FOOD is at hand", "otherwise"]
            Eat "EAT"
                ["x is FOOD", "x is BIRD, SNAKE, CLAM, OYSTER, DWARF, DRAGON, TROLL or BEAR",
                "otherwise"]
            Drink "DRINK"
                ["by itself, and neither the lake is WATER nor water is at hand",
                "with an object other than WATER", "water is at hand", "otherwise"]
            Rub "RUB" ["x is LAMP", "otherwise"]
            Throw "THROW"
                ["x is ROD and isn't carried, but ROD2 is", "x isn't carried",
                "x is a treasure, and TROLL is here", "x is FOOD, and BEAR is at hand",
                "x isn't AXE", "a dwarf is here; of three numbers 0 is drawn",
                "a dwarf is here, and none was killed before", "a dwarf is here",
                "DRAGON is here, and its prop is 0", "TROLL is here",
                "BEAR is at hand, and its prop is 0", "otherwise"]
            Find "FIND/INVENTORY"
                ["x is carried", "the cave is closed", "x is here",
                "x is in the bottle, and BOTTLE is here", "x is what the lake is of",
                "x is DWARF, and a dwarf is here", "otherwise"]
            BareInventory "INVENTORY alone" ["the list is empty", "otherwise"]
            BearAlong "INVENTORY, bear" ["BEAR is carried"]
            Feed "FEED"
                ["x is BIRD", "x is SNAKE, the cave isn't closed, and BIRD is at hand",
                "x is DRAGON, and its prop is other than 0", "x is SNAKE or DRAGON", "x is TROLL",
                "x is DWARF, and FOOD is at hand", "x is DWARF", "x is BEAR, and FOOD is at hand",
                "x is BEAR, and its prop is 0", "x is BEAR, and its prop is 3", "x is BEAR",
                "otherwise"]
            BareFill "FILL alone" ["BOTTLE is at hand", "otherwise"]
            Fill "FILL"
                ["x is VASE, and there is no lake", "x is VASE, and isn't carried", "x is VASE",
                "x isn't BOTTLE", "something is in the bottle", "there is no lake",
                "the lake is OIL", "otherwise"]
            Blast "BLAST"
                ["the cave isn't closed", "ROD2's prop is below 0", "ROD2 is at hand",
                "the player is at the place ne", "otherwise"]
            BareFoo "FOO alone"
                ["the word isn't the next one, and nothing was begun",
                "the word isn't the next one", "the word isn't the fourth", "EGGS are absent",
                "EGGS are at home", "EGGS are carried by a player who is where they are at home",
                "EGGS and TROLL are nowhere, and TROLL's prop is 0", "otherwise"]
            Eggs "eggs" ["the player is at the home of EGGS", "EGGS are at hand", "otherwise"]
            BareRead "READ alone"
                ["it is dark", "the cave is closed, and OYSTER is carried",
                "exactly one of MAGAZINE, TABLET and MESSAGE is at hand", "otherwise"]
            Read "READ"
                ["it is dark", "x is MAGAZINE", "x is TABLET", "x is MESSAGE",
                "x is OYSTER, which is carried, and hint 2 was taken",
                "x is OYSTER, which is carried, and the cave is closed", "otherwise"]
            Break "BREAK"
                ["x is VASE, and its prop is 0", "x is MIRROR, and the cave is closed",
                "x is MIRROR", "otherwise"]
            Wake "WAKE" ["x is DWARF, and the cave is closed", "otherwise"]
        }
    };
}

macro_rules! entries {
    ($($table:ident $name:literal [$($words:literal),+])*) => {
        &[$((Table::$table, $name, &[$($words),+])),*]
    };
}

/// Each table, in the order of the pages, with what it is called, and when each of its rows applies,
/// in words. The definitions read it, too.
pub const EACH_TABLE: &[(Table, &str, &[&str])] = all_tables!(entries);

macro_rules! variants {
    ($($table:ident $name:literal [$($words:literal),+])*) => {
        [$(Table::$table),*]
    };
}

macro_rules! name_and_words {
    ($asked:ident $($table:ident $name:literal [$($words:literal),+])*) => {
        match $asked {
            $(Table::$table => ($name, &[$($words),+]),)*
        }
    };
}

/// Each table, in the order of the pages.
pub fn each_table() -> &'static [Table]
    ensures { result.now ≡ tables }
{
    &all_tables!(variants)
}

/// What a table is called, and when each of its rows applies, in words.
#[tactic(auto, unfolding(crate::specs::RuleTables::declared))]
pub fn table_name_and_words(table: Table) -> (&'static str, &'static [&'static str])
    ensures name { result.0.now ≡ table_name table }
    ensures words { map (λ words. words.now) result.1.now ≡ row_words table }
    ensures within { length result.1.now < defined.ROW_END }
{
    all_tables!(name_and_words table)
}
