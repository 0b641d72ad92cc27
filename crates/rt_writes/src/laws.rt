// The laws of the overlay.
ghost use Rattle.rt_writes.specs.laws.Overlay.{OverlayOfPart, OverlayOfChild};
ghost use Rattle.rt_writes.specs.laws.Overlay.{OverlayElsewhere, OverlayOfWhole, PartIsShallow};
ghost use Rattle.rt_writes.specs.laws.Overlay.{PutIsShallow, OverlayIsShallow};

/// Each part of an overlaid tree is the overlay of that part, and so is each child.
pub fn overlay_law()
    ensures part { OverlayOfPart }
    ensures child { OverlayOfChild }
{}

/// What an overlay leaves as it was, and what it hides.
pub fn touch_law()
    ensures elsewhere { OverlayElsewhere }
    ensures whole { OverlayOfWhole }
{}

/// Parts are no deeper than their trees.
pub fn depth_law()
    ensures { PartIsShallow }
{}

/// What is put or overlaid is no deeper than the trees that it is made of.
pub fn shallow_law()
    ensures put { PutIsShallow }
    ensures overlay { OverlayIsShallow }
{}
