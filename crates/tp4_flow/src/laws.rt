//! Laws of the two halves (X.224, class 4: sequencing, explicit flow control, expedited data).

ghost use Rattle.std.specs.Prelude.{◌≡◌, ℕ, List};
ghost use Rattle.tp4_number.specs.declared.piece.Piece.{Piece};
ghost use Rattle.tp4_number.specs.Number.{whole, wire};
ghost use Rattle.tp4_flow.specs.ReceivingHalf.{Half, IsOnWire, on_wire, ak, dt_arrival, taken_dt, taken_ed, half_granted};

/// A receiving half that keeps wire numbers stands for every half with these wire numbers: it answers,
/// tells and sends what that half does, and stands for it afterwards.
pub fn over_wires()
    ensures got { (h : Half) (w : ℕ) (piece : Piece) → dt_arrival (on_wire h) w piece ≡ dt_arrival h w piece }
    ensures dt { (h : Half) (w : ℕ) (piece : Piece) → IsOnWire (taken_dt whole h w piece) (taken_dt wire (on_wire h) w piece) }
    ensures ed { (h : Half) (w : ℕ) (octets : List ℕ) → IsOnWire (taken_ed whole h w octets) (taken_ed wire (on_wire h) w octets) }
    ensures ak { (h : Half) → ak (on_wire h) ≡ ak h }
    ensures granted { (h : Half) (credit : ℕ) → half_granted (on_wire h) credit ≡ on_wire (half_granted h credit) }
{}
