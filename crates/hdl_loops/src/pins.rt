//! The joints of a part by the bits of its pins, so that those of a bit are found without a look at all.

ghost use Rattle.std.specs.Prelude.{◌≡◌, ◌++◌, ◌∷◌, [], true, false, OnOk, IfOk, if◌then◌else◌};
ghost use Rattle.hdl_loops.specs.declared.joint.Joint.{Joint};
ghost use Rattle.hdl_loops.specs.Inner.Hops.{bit};
ghost use Rattle.hdl_loops.specs.Inner.Leaving.{IsLinked};
ghost use Rattle.hdl_loops.specs.Inner.Ties.{In, pins_of, AreOn, AreSides};

use crate::hops::BitOf;
use crate::joint::Joint;
use crate::leaving::Leaving;
use std::alloc::{AllocError, Global};

/// The joints that go into a part, and those that go out, and where each bit of a pin stands among them.
#[derive(Drop)]
pub struct Sides<'a> {
    pub enters: Vec<Joint<'a>>,
    pub leaves: Vec<Joint<'a>>,
    pub enters_at: Leaving<'a>,
    pub leaves_at: Leaving<'a>,
}

/// Adds a joint, if it is wanted.
pub(crate) fn add_if<'a>(
    joint: &Joint<'a>,
    wanted: bool,
    found: &mut Vec<Joint<'a>>,
) -> Result<(), AllocError>
    ensures { OnOk result (found.new.items
        ≡ (if wanted then found.old.items ++ joint.now ∷ [] else found.old.items)) }
{
    if !wanted {
        return Ok(());
    }
    found.push(*joint)?;
    Ok(())
}

/// The joints that go into the part.
fn enters_of<'a>(alloc: Global, joints: &[Joint<'a>]) -> Result<Vec<Joint<'a>>, AllocError>
    ensures { IfOk result (λ v. AreOn joints.now v.items true) }
{
    let mut found = Vec::new(alloc);
    for joint in joints {
        add_if(joint, joint.input, &mut found)?;
    }
    Ok(found)
}

/// The joints that go out of it.
fn leaves_of<'a>(alloc: Global, joints: &[Joint<'a>]) -> Result<Vec<Joint<'a>>, AllocError>
    ensures { IfOk result (λ v. AreOn joints.now v.items false) }
{
    let mut found = Vec::new(alloc);
    for joint in joints {
        add_if(joint, !joint.input, &mut found)?;
    }
    Ok(found)
}

/// Where each bit of a pin stands among the joints.
fn pins_of<'a>(alloc: Global, joints: &[Joint<'a>]) -> Result<Leaving<'a>, AllocError>
    ensures { IfOk result (λ pins. IsLinked (pins_of joints.now) pins) }
{
    let mut pins = Leaving::new(alloc);
    for joint in joints {
        pins.add(joint.pin)?;
    }
    Ok(pins)
}

/// The two sides of these joints.
pub(crate) fn sides_of<'a>(alloc: Global, joints: &[Joint<'a>]) -> Result<Sides<'a>, AllocError>
    ensures { IfOk result (AreSides joints.now) }
{
    let enters = enters_of(alloc, joints)?;
    let leaves = leaves_of(alloc, joints)?;
    let enters_at = pins_of(alloc, enters.as_slice())?;
    let leaves_at = pins_of(alloc, leaves.as_slice())?;
    Ok(Sides {
        enters,
        leaves,
        enters_at,
        leaves_at,
    })
}

/// The joints of this bit of a pin.
pub(crate) fn joints_at<'a>(
    alloc: Global,
    joints: &[Joint<'a>],
    pins: &Leaving<'a>,
    pin: &BitOf<'a>,
) -> Result<Vec<Joint<'a>>, AllocError>
    requires { IsLinked (pins_of joints.now) pins.now }
    ensures only { IfOk result (λ v. (joint : Joint) → In joint v.items
        → (In joint joints.now) × (bit joint.pin ≡ bit pin.now)) }
    ensures all { IfOk result (λ v. (joint : Joint) → In joint joints.now
        → bit joint.pin ≡ bit pin.now → In joint v.items) }
{
    let mut found = Vec::new(alloc);
    let mut at = pins.last(pin);
    while let Some(k) = at {
        found.push(joints[k])?;
        at = pins.before(k);
    }
    Ok(found)
}
