//! What is left of a cell that has ended.

use crate::views::View;
use atomic_table::Seat;
use std::marker::Model;

/// That a cell has ended: [`crate::CellSeat::close`] alone makes one, of the seat that ended it.
/// Contracts see what that seat knew then.
#[derive(Drop)]
pub struct CellEnd {
    pub(crate) seat: Seat<(), View>,
}

impl Model for CellEnd {
    ghost use Rattle.solero_cell.specs.declared.views.View.{View};
    ghost use Rattle.solero_cell.specs.Calls.{IsAtEnd};

    ghost Value = { View };

    ghost view = { λ e. e.seat.me.0 };

    ghost invariant = { λ e. IsAtEnd e.seat.me.0 };
}
