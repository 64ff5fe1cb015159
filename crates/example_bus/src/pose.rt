//! The position of the robot: a type of this program's own, as the values of messages.
ghost use Rattle.std.specs.Prelude.{◌≡◌, ◌∷◌, [], codes, slice_index, T, to_bits, from_bits, refl};
ghost use Rattle.std.specs.Float.{binary64};
ghost use Rattle.std.specs.Float.Ieee.{fits};
ghost use Rattle.iox_hub.specs.QueuesBase.Scalars.{float-given_back};

use anyhow::{Result, bail};
use iox_hub::prelude::*;

/// A position in metres, and a heading in degrees.
#[derive(Clone, Copy, Debug)]
pub struct Pose {
    pub x: f64,
    pub y: f64,
    pub yaw: f64,
}

/// One word for each field.
impl Words for Pose {
    ghost parts = { λ p. to_bits binary64 p.x ∷ to_bits binary64 p.y ∷ to_bits binary64 p.yaw ∷ [] };

    ghost of_parts = { λ ws. record {
      x = from_bits binary64 (slice_index ws 0);
      y = from_bits binary64 (slice_index ws 1);
      yaw = from_bits binary64 (slice_index ws 2);
    } };

    ghost is_value = { λ p. T (fits binary64 p.x) × T (fits binary64 p.y) × T (fits binary64 p.yaw) };

    const WORDS: usize = 3;

    ghost WORDS = { 3 };

    fn word(&self, i: usize) -> u64 {
        match i {
            0 => self.x.word(0),
            1 => self.y.word(0),
            2 => self.yaw.word(0),
            _ => 0,
        }
    }

    fn of_words(words: &[u64]) -> Pose {
        Pose {
            x: f64::of_words(&words[0..1]),
            y: f64::of_words(&words[1..2]),
            yaw: f64::of_words(&words[2..3]),
        }
    }

    fn shows(&self) {
        self.x.shows();
        self.y.shows();
        self.yaw.shows();
    }

    ghost as_many = { λ p. refl };

    ghost given_back = { λ p h. Prim.search (float-given_back) };
}

impl ZeroCopySend for Pose {
    ghost name = { codes "Pose" };

    ghost size = { 24 };

    ghost alignment = { 8 };

    fn type_detail(variant: TypeVariant) -> TypeDetail {
        TypeDetail::known(variant, b"Pose", 24, 8)
    }
}

/// Receives the next pose, if one waits, and releases it.
pub fn hear_pose<H: Home<Pose, u64>>(
    alloc: Global,
    poses: &mut H,
    port: PortId,
) -> Result<Option<Pose>> {
    let subscriber = slice::Subscriber::of_port(port, 4);
    if !subscriber.holds(poses) {
        bail!("no subscriber");
    }
    let Some(sample) = subscriber.receive(alloc, poses)? else {
        return Ok(None);
    };
    if !sample.holds(poses) {
        let _ = sample.into_taken();
        bail!("no sample");
    }
    let pose = sample.payload(poses).first().copied();
    sample.release(poses);
    Ok(pose)
}
