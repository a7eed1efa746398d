ghost use Rattle.std.specs.Prelude.{◌≡◌, Some, None};
ghost use Rattle.cave_world.specs.declared.part.Part.TheVariants as part;
ghost use Rattle.cave_turn.specs.declared.request.Request.TheVariants as request_is;
ghost use Rattle.cave_turn.specs.Request.{half_command_of, act_or_ask};

use crate::request::{Request, Understood};
use cave_words::Word;
use cave_world::{Part, Talk};
use data_rows::Role;
use world_objects::Object;

/// Half a command: what was said of it before its other half.
#[derive(Clone, Copy, Debug, PartialEq, Eq)]
pub struct HalfCommand {
    /// The number of the action.
    pub verb: Option<u16>,
    /// The object; object 0 is none.
    pub object: Object,
}

impl HalfCommand {
    /// The half command that the game remembers.
    pub fn of(talk: Talk) -> HalfCommand
        ensures { result ≡ half_command_of talk }
    {
        HalfCommand {
            verb: talk.verb,
            object: talk.object,
        }
    }

    /// The verb that was said before is forgotten.
    pub(crate) fn forget_verb(self) -> HalfCommand
        ensures { result ≡ record self { verb = None } }
    {
        HalfCommand { verb: None, ..self }
    }

    /// A word is the verb.
    pub(crate) fn take_verb(self, number: u16) -> HalfCommand
        ensures { result ≡ record self { verb = Some number } }
    {
        HalfCommand {
            verb: Some(number),
            ..self
        }
    }

    /// An object is that of the command.
    pub(crate) fn take_object(self, object: Object) -> HalfCommand
        ensures { result ≡ record self { object = object } }
    {
        HalfCommand { object, ..self }
    }

    pub(crate) fn asks_for(self, request: Request) -> Understood
        ensures { result ≡ record { half = self; request = request } }
    {
        Understood {
            half: self,
            request,
        }
    }

    pub(crate) fn travels(self, motion: u16) -> Understood
        ensures { result ≡ record { half = self; request = request_is.Motion motion } }
    {
        self.asks_for(Request::Motion(motion))
    }

    pub(crate) fn tells_message(self, number: u16) -> Understood
        ensures { result ≡ record { half = self; request = request_is.Tell (part.Message number) } }
    {
        self.asks_for(Request::Tell(Part::Message(number)))
    }

    pub(crate) fn says(self, role: Role) -> Understood
        ensures { result ≡ record { half = self; request = request_is.Tell (part.Role role) } }
    {
        self.asks_for(Request::Tell(Part::Role(role)))
    }

    /// The verb is done to the object, if there is one; without a verb the player is asked for it.
    pub(crate) fn acts_by_verb(self, word: Word) -> Understood
        ensures { result ≡ record {
          half = self;
          request = act_or_ask self.verb self.object word;
        } }
    {
        match self.verb {
            Some(verb) => self.asks_for(Request::Act(verb, self.object, word)),
            None => self.asks_for(Request::WhatToDo(word)),
        }
    }
}
