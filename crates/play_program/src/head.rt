//! What the head of a log says differently from a request.

ghost use Rattle.std.specs.Prelude.{◌≡◌, option_map};
ghost use Rattle.data_rows.specs.Fields.{fields};
ghost use Rattle.play_program.specs.Head.{base_name, head_notice, is_other_seed, is_same_file};
ghost use Rattle.play_program.specs.Head.{other_said, said_in, seed_asked};

use crate::files::file_of;
use play_command::{Input, Request, What, number_written};
use play_machine::head::{first_file, head_of, value_of};

/// What the head of a log says differently from a request, in printable ASCII.
#[derive(Clone, Copy, Debug)]
pub struct HeadSaid<'a> {
    /// The option, with the blank after it, or no text for the database.
    pub option: &'static str,
    pub text: &'a [u8],
}

/// The seed with which a request plays its logs, if it plays some and isn't quiet.
fn seed_asked(request: &Request<'_>) -> Option<u32>
    ensures { result ≡ seed_asked request.now.what request.now.quiet }
{
    match request.what {
        What::Edit(asked) if !request.quiet => Some(asked.editing.seed),
        What::Play { seed, .. } | What::Cover { seed, .. } | What::Map { seed, .. } => Some(seed),
        _ => None,
    }
}

/// The end of a path, after its last slash.
fn base_name(path: &[u8]) -> &[u8]
    ensures { result.now ≡ base_name path.now }
{
    let mut name = path;
    let mut rest = path;
    while let [byte, more @ ..] = rest {
        rest = more;
        if *byte == b'/' {
            name = more;
        }
    }
    name
}

/// Whether the files of two paths have the same name, perhaps in other folders.
fn is_same_file(said: &[u8], given: &str) -> bool
    ensures { result ≡ is_same_file said.now given.now }
{
    base_name(said) == base_name(given.as_bytes())
}

/// Whether 1 to 10 digits write another number.
fn is_other_seed(seed: u32, said: &[u8]) -> bool
    ensures { result ≡ is_other_seed seed said.now }
{
    number_written(said).is_some_and(|number| number != u64::from(seed))
}

/// The first of these that a head says differently: the database, its bindings, the seed.
fn other_said<'a>(request: &Request<'_>, seed: u32, head: &'a [u8]) -> Option<HeadSaid<'a>>
    ensures { option_map said_in result ≡ other_said request.now seed (fields head.now) }
{
    match first_file(head) {
        Some(text) if !is_same_file(text, file_of(request, Input::Cave, 0).unwrap_or("")) => {
            return Some(HeadSaid { option: "", text });
        }
        _ => {}
    }
    if let Some(text) = value_of(b"--bind", b"-b", head) {
        match file_of(request, Input::Bindings, 0) {
            Some(bindings) if is_same_file(text, bindings) => {}
            _ => {
                let option = "--bind ";
                return Some(HeadSaid { option, text });
            }
        }
    }
    match value_of(b"--seed", b"-s", head) {
        Some(text) if is_other_seed(seed, text) => {
            let option = "--seed ";
            Some(HeadSaid { option, text })
        }
        _ => None,
    }
}

/// What the head of a log says differently from a request, if it does.
#[tactic(auto, unfolding(crate::specs::Head::head_notice))]
pub fn head_notice<'a>(request: &Request<'_>, log: &'a [u8]) -> Option<HeadSaid<'a>>
    ensures { option_map said_in result ≡ head_notice request.now log.now }
{
    let seed = seed_asked(request)?;
    let head = head_of(log)?;
    other_said(request, seed, head)
}
