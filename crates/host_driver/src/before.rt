use std::marker::Brand;

/// What a port told when something began that contracts speak of. It is picked at a call, by `Brand`.
pub trait Before {
    ghost use Rattle.wire_told.specs.Ports.{PortTold};

    ghost before: { PortTold };
}

impl Before for Brand {
    ghost use Rattle.std.specs.Prelude.{None, false};

    ghost before = { record {
      peer = None;
      up = false;
      aimed = false;
      last = None;
      stands = λ place. None;
      heard = None;
      log = None;
      faults = 0;
      ends = 0;
      honest = Unit {0};
    } };
}
