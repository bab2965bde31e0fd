// A file of a command's words, read whole or refused; and the model that the first file spells.
ghost use Rattle.std.specs.Prelude.{◌≡◌, ◌∷◌, []};
ghost use Rattle.outside_io.specs.Seen.{Moves, logged, since};
ghost use Rattle.mono_top.specs.Fetch.{Fetches, FetchesModel};

use crate::lines::{self, Place};
use crate::reply::Reply;
use crate::status::Status;
use model_text::{Model, ModelError, read_model};
use outside_io::{ByteText, ReadAns, Shelf, read_file};
use std::alloc::{AllocError, Global};

/// The most bytes of a file.
pub const FILE_MOST: usize = 16_777_216;

#[derive(Drop)]
pub(crate) enum Fetched {
    Bytes(ByteText),
    Refused(Reply),
}

#[derive(Drop)]
pub(crate) enum FetchedModel {
    Model(Model),
    Refused(Reply),
}

pub(crate) fn fetch<S: Shelf>(
    alloc: Global,
    shelf: &mut S,
    place: Place,
    name: &str,
) -> Result<Fetched, AllocError>
    ensures fetches { Fetches place name.now (since (S.seen shelf.old) (S.seen shelf.new)) result }
    ensures log { (S.seen shelf.new).log ≡ logged (S.seen shelf.old).log (name.now ∷ []) }
    ensures moves { Moves (S.seen shelf.old) (S.seen shelf.new) }
{
    let reply = match read_file(alloc, shelf, name, FILE_MOST) {
        ReadAns::Bytes(bytes) => return Ok(Fetched::Bytes(bytes)),
        ReadAns::NoMemory => return Err(AllocError),
        ReadAns::Missing => Reply::refusal(Status::Missing, lines::missing(place)),
        ReadAns::Fault => Reply::refusal(Status::ReadFault, lines::read_fault(place)),
        ReadAns::TooLong => Reply::refusal(Status::TooLong, lines::too_long(place)),
    };
    Ok(Fetched::Refused(reply))
}

/// The model that the first file spells.
pub(crate) fn fetch_model<S: Shelf>(
    alloc: Global,
    shelf: &mut S,
    name: &str,
) -> Result<FetchedModel, AllocError>
    ensures fetches { FetchesModel name.now (since (S.seen shelf.old) (S.seen shelf.new)) result }
    ensures log { (S.seen shelf.new).log ≡ logged (S.seen shelf.old).log (name.now ∷ []) }
    ensures moves { Moves (S.seen shelf.old) (S.seen shelf.new) }
{
    let text = match fetch(alloc, shelf, Place::First, name)? {
        Fetched::Bytes(text) => text,
        Fetched::Refused(reply) => return Ok(FetchedModel::Refused(reply)),
    };
    match read_model(alloc, text.as_slice()) {
        Ok(model) => Ok(FetchedModel::Model(model)),
        Err(ModelError::Fault { line, word }) => {
            Ok(FetchedModel::Refused(Reply::bad_line(alloc, line, word)?))
        }
        Err(ModelError::NoMemory) => Err(AllocError),
    }
}
