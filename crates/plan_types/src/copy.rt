//! Equal frames, and what is in them.
ghost use Rattle.std.specs.Prelude.{◌≡◌, map, IfOk};
ghost use Rattle.plan_types.specs.Frames.{variable_of, body_of, outgoing_of, frame_of};

use crate::{Body, Frame, Outgoing, Variable};
use std::alloc::Global;
use uno_base::NoMemory;

impl Frame {
    /// An equal frame.
    pub fn copy(&self, alloc: Global) -> Result<Frame, NoMemory>
        ensures { IfOk result (λ copy. frame_of copy ≡ frame_of self.now) }
    {
        match self {
            Frame::Base { root } => Ok(Frame::Base { root: *root }),
            Frame::Body(body) => Ok(Frame::Body(body.copy(alloc)?)),
            Frame::Out(outgoing) => Ok(Frame::Out(copy_outgoing(outgoing)?)),
        }
    }
}

impl Body {
    /// An equal method that runs.
    pub fn copy(&self, alloc: Global) -> Result<Body, NoMemory>
        ensures { IfOk result (λ copy. body_of copy ≡ body_of self.now) }
    {
        let face = self.face.copy()?;
        let variables = copy_variables(alloc, &self.variables)?;
        Ok(Body {
            number: self.number,
            object: self.object,
            face,
            function: self.function,
            from_peer: self.from_peer,
            variables,
            place: self.place,
        })
    }
}

/// An equal call that went out.
fn copy_outgoing(outgoing: &Outgoing) -> Result<Outgoing, NoMemory>
    ensures { IfOk result (λ copy. outgoing_of copy ≡ outgoing_of outgoing.now) }
{
    let oid = outgoing.oid.copy()?;
    let face = outgoing.face.copy()?;
    Ok(Outgoing {
        number: outgoing.number,
        oid,
        face,
        function: outgoing.function,
    })
}

/// Equal variables, in their order.
fn copy_variables(alloc: Global, variables: &[Variable]) -> Result<Vec<Variable>, NoMemory>
    ensures { IfOk result (λ copies. map variable_of copies.items ≡ map variable_of variables.now) }
{
    let mut copies = Vec::new(alloc);
    for variable in variables {
        copies.push(copy_variable(alloc, variable)?)?;
    }
    Ok(copies)
}

/// An equal variable.
fn copy_variable(alloc: Global, variable: &Variable) -> Result<Variable, NoMemory>
    ensures { IfOk result (λ copy. variable_of copy ≡ variable_of variable.now) }
{
    let name = variable.name.copy()?;
    let value = variable.value.copy(alloc)?;
    Ok(Variable { name, value })
}
