ghost use Rattle.std.specs.Prelude.{◌≡◌};
ghost use Rattle.tal_code.specs.Spots.{spot_in};

use crate::code::Code;
use std::marker::Model;

/// A spot, whose index is code.
#[derive(Drop)]
pub(crate) enum Aim {
    Local(u8),
    Simple(u16),
    Element { item: u16, index: Code },
}

/// The code of a spot.
#[derive(Drop)]
pub struct SpotCode {
    aim: Aim,
}

impl Model for SpotCode {
    ghost use Rattle.tal_tree.specs.contracts.expression.Spot as expression;
    ghost use Rattle.tal_tree.specs.declared.expression.Spot.{Spot};
    ghost use Rattle.tal_code.specs.Spots as spots;

    ghost Value = { Spot };

    ghost coded = { expression.the_row.coded };

    ghost view = { λ code. spots.spot_in code.aim };
}

impl SpotCode {
    pub(crate) fn new(aim: Aim) -> SpotCode
        ensures { result ≡ spot_in aim }
    {
        SpotCode { aim }
    }

    pub(crate) fn aim(&self) -> &Aim
        ensures { spot_in result.now ≡ self.now }
    {
        &self.aim
    }
}
