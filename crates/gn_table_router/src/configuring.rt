//! What is known of a router's configuration by the router's type.

use std::marker::Brand;

/// The configuration of a router, as proofs name it. A call of a program picks it.
pub trait Configuring {
    ghost use Rattle.std.specs.Prelude.{Option};
    ghost use Rattle.gn_rules.specs.declared.config.Config.{Config};

    ghost config: { Option Config };
}

/// No name.
impl Configuring for () {
    ghost use Rattle.std.specs.Prelude.{None};

    ghost config = { None };
}

impl Configuring for Brand {
    ghost use Rattle.std.specs.Prelude.{None};

    ghost config = { None };
}
