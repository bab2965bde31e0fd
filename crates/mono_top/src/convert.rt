// The command `convert MODEL F T`: the model at the scale of F and T decimals.
ghost use Rattle.mono_top.specs.Converts.{Converts};
ghost use Rattle.mono_top.specs.Replies.{RepliesWith};
ghost use Rattle.model_text.specs.Scale.{IsScale};

use crate::lines;
use crate::reply::{Reply, Text};
use crate::status::Status;
use model_text::{Model, Scale, ScaleFault, print_model, rescale};
use std::alloc::{AllocError, Global};

/// The printed form of the model, where its numbers are whole at that scale.
pub(crate) fn convert(alloc: Global, model: &Model, to: Scale) -> Result<Reply, AllocError>
    requires { IsScale to }
    ensures { RepliesWith (Converts to model.now.scale model.now.entries) result }
{
    match rescale(alloc, model, to) {
        Ok(converted) => Ok(Reply {
            status: Status::Done,
            text: Text::Made(print_model(alloc, &converted)?),
        }),
        Err(ScaleFault::Inexact) => Ok(Reply::refusal(
            Status::NotConverted,
            lines::not_converted(),
        )),
        Err(ScaleFault::NoMemory) => Err(AllocError),
    }
}
