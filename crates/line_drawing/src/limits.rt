ghost use Rattle.std.specs.Prelude.{◌≡◌};
ghost use Rattle.line_drawing.specs.declared.drawing.TheConstants.{LINE_END};

/// A law: the byte that ends a line, by its number.
pub fn the_limits()
    ensures { LINE_END ≡ 0x0D }
{}
