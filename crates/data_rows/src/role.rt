//! The messages that rules name by what they are for.
ghost use Rattle.std.specs.Prelude.{◌≡◌, length, map};
ghost use Rattle.std.specs.List.{range_with_len};
ghost use Rattle.data_rows.specs.Role.{each_role, role_name, role_number};
ghost use Rattle.data_rows.specs.Role as defined;

/// A message that rules name by what it is for; bindings give its number.
#[derive(Clone, Copy, Debug, PartialEq, Eq)]
pub enum Role {
    Answer,
    Around,
    AxeBear,
    AxeDragon,
    AxeFirst,
    AxeKill,
    AxeMiss,
    AxeThrown,
    AxeTroll,
    BackNo,
    BackNone,
    BearBars,
    BearChained,
    BearFed,
    BearFight,
    BearFollows,
    BearFriend,
    BirdDead,
    BirdDragon,
    BirdEaten,
    BirdFeed,
    BirdNo,
    BirdRod,
    BirdSnake,
    Blocked,
    Booty,
    BottleFull,
    BridgeFalls,
    Brief,
    CantPour,
    CaveIn,
    CaveOut,
    ChainFree,
    ChainLock,
    ChainLocked,
    ChestHid,
    ClamHeld,
    ClamTool,
    Closing,
    ClosingExit,
    Crawl,
    Dark,
    DeadAlready,
    Die1,
    Die2,
    Die3,
    Disturbed,
    DoorOiled,
    DoorWet,
    Drunk,
    DwarfFeed,
    DwarfOne,
    Eaten,
    Empty,
    Enough,
    Facing,
    FeedWhat,
    FeetWet,
    FilledOil,
    FilledWater,
    FooOrder,
    ForcedLimit,
    GiveUp,
    HeldIt,
    HereIt,
    HintTake,
    HitMany,
    HitOne,
    Holding,
    Hollow,
    Immovable,
    Inout,
    Instructions,
    KeysWhat,
    KilledClosing,
    Klutz,
    Knife,
    KnifeOne,
    LampDead,
    LampLow,
    LampLowFind,
    LampLowUsed,
    LampOff,
    LampOn,
    LockWhat,
    Locked,
    Magic,
    MirrorBreak,
    MirrorNo,
    MissAll,
    MissOne,
    NoAppetite,
    NoBottle,
    NoCage,
    NoDir,
    NoKeys,
    NoLake,
    NoLatch,
    NoLock,
    NoLockHere,
    NoMotion,
    NoWay,
    NoWord,
    NoWord2,
    NoWord3,
    NoneToKill,
    NotHeld,
    NotHungry,
    OffScale,
    Ok,
    OysterAsk,
    OysterHeld,
    OysterHint,
    OysterOpen,
    OysterTool,
    Pearl,
    Pit,
    PlantOil,
    PlantRoots,
    PourGround,
    Quit,
    ReadMagazine,
    ReadMessage,
    ReadOyster,
    ReadTablet,
    Reborn1,
    Reborn2,
    Reborn3,
    Replaced,
    Repository,
    Ridiculous,
    RubOdd,
    Rustle,
    Rusty,
    ScoreQuit,
    Shell,
    SnakeNo,
    Success,
    TooMuch,
    TooTight,
    TopClass,
    TrollFeed,
    TrollFlees,
    TrollNo,
    TrollPaid,
    Unlocked,
    VaseBreak,
    VaseDry,
    VaseSmash,
    WakeDwarf,
    WasLocked,
    WasUnlocked,
    Welcome,
    Where,
    WithWhat,
    WrongWay,
}

/// Hands all roles, in their order, to a macro: the variant of each, and the name that bindings use.
macro_rules! all_roles {
    ($write:ident) => {
        $write! {
            Answer "answer" Around "around" AxeBear "axe-bear" AxeDragon "axe-dragon"
            AxeFirst "axe-first" AxeKill "axe-kill" AxeMiss "axe-miss" AxeThrown "axe-thrown"
            AxeTroll "axe-troll" BackNo "back-no" BackNone "back-none" BearBars "bear-bars"
            BearChained "bear-chained" BearFed "bear-fed" BearFight "bear-fight"
            BearFollows "bear-follows" BearFriend "bear-friend" BirdDead "bird-dead"
            BirdDragon "bird-dragon" BirdEaten "bird-eaten" BirdFeed "bird-feed" BirdNo "bird-no"
            BirdRod "bird-rod" BirdSnake "bird-snake" Blocked "blocked" Booty "booty"
            BottleFull "bottle-full" BridgeFalls "bridge-falls" Brief "brief" CantPour "cant-pour"
            CaveIn "cave-in" CaveOut "cave-out" ChainFree "chain-free" ChainLock "chain-lock"
            ChainLocked "chain-locked" ChestHid "chest-hid" ClamHeld "clam-held"
            ClamTool "clam-tool" Closing "closing" ClosingExit "closing-exit" Crawl "crawl"
            Dark "dark" DeadAlready "dead-already" Die1 "die1" Die2 "die2" Die3 "die3"
            Disturbed "disturbed" DoorOiled "door-oiled" DoorWet "door-wet" Drunk "drunk"
            DwarfFeed "dwarf-feed" DwarfOne "dwarf-one" Eaten "eaten" Empty "empty"
            Enough "enough" Facing "facing" FeedWhat "feed-what" FeetWet "feet-wet"
            FilledOil "filled-oil" FilledWater "filled-water" FooOrder "foo-order"
            ForcedLimit "forced-limit" GiveUp "give-up" HeldIt "held-it" HereIt "here-it"
            HintTake "hint-take" HitMany "hit-many" HitOne "hit-one" Holding "holding"
            Hollow "hollow" Immovable "immovable" Inout "inout" Instructions "instructions"
            KeysWhat "keys-what" KilledClosing "killed-closing" Klutz "klutz" Knife "knife"
            KnifeOne "knife-one" LampDead "lamp-dead" LampLow "lamp-low"
            LampLowFind "lamp-low-find" LampLowUsed "lamp-low-used" LampOff "lamp-off"
            LampOn "lamp-on" LockWhat "lock-what" Locked "locked" Magic "magic"
            MirrorBreak "mirror-break" MirrorNo "mirror-no" MissAll "miss-all" MissOne "miss-one"
            NoAppetite "no-appetite" NoBottle "no-bottle" NoCage "no-cage" NoDir "no-dir"
            NoKeys "no-keys" NoLake "no-lake" NoLatch "no-latch" NoLock "no-lock"
            NoLockHere "no-lock-here" NoMotion "no-motion" NoWay "no-way" NoWord "no-word"
            NoWord2 "no-word-2" NoWord3 "no-word-3" NoneToKill "none-to-kill" NotHeld "not-held"
            NotHungry "not-hungry" OffScale "off-scale" Ok "ok" OysterAsk "oyster-ask"
            OysterHeld "oyster-held" OysterHint "oyster-hint" OysterOpen "oyster-open"
            OysterTool "oyster-tool" Pearl "pearl" Pit "pit" PlantOil "plant-oil"
            PlantRoots "plant-roots" PourGround "pour-ground" Quit "quit"
            ReadMagazine "read-magazine" ReadMessage "read-message" ReadOyster "read-oyster"
            ReadTablet "read-tablet" Reborn1 "reborn1" Reborn2 "reborn2" Reborn3 "reborn3"
            Replaced "replaced" Repository "repository" Ridiculous "ridiculous" RubOdd "rub-odd"
            Rustle "rustle" Rusty "rusty" ScoreQuit "score-quit" Shell "shell" SnakeNo "snake-no"
            Success "success" TooMuch "too-much" TooTight "too-tight" TopClass "top-class"
            TrollFeed "troll-feed" TrollFlees "troll-flees" TrollNo "troll-no"
            TrollPaid "troll-paid" Unlocked "unlocked" VaseBreak "vase-break" VaseDry "vase-dry"
            VaseSmash "vase-smash" WakeDwarf "wake-dwarf" WasLocked "was-locked"
            WasUnlocked "was-unlocked" Welcome "welcome" Where "where" WithWhat "with-what"
            WrongWay "wrong-way"
        }
    };
}

macro_rules! names {
    ($($role:ident $name:literal)*) => {
        [$($name),*]
    };
}

macro_rules! variants {
    ($($role:ident $name:literal)*) => {
        [$(Role::$role),*]
    };
}

/// The names by which bindings know them, in their order.
pub const ROLE_NAMES: [&str; 156] = all_roles!(names);

/// All roles, in their order.
pub fn each_role() -> &'static [Role]
    ensures value { result.now ≡ each_role }
    ensures ordered { map role_number result.now ≡ range_with_len 0 (length defined.ROLE_NAMES) }
{
    &all_roles!(variants)
}

impl Role {
    /// Its place among all, from 0.
    pub fn number(self) -> u16
        ensures { result ≡ role_number self }
    {
        self as u16
    }

    /// The name that bindings give it. It is printed in place of a message that isn't bound.
    pub fn name(self) -> &'static str
        ensures { result.now ≡ role_name self }
    {
        ROLE_NAMES[self as usize]
    }
}
