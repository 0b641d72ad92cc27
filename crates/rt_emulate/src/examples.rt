// Worked rows.
ghost use Rattle.rt_emulate.specs.laws.Examples.{OthersAreNoSdks, SdksAreKnown, UnwrittenOnes, WrittenOnes};

/// What browsers write as an origin has no fault, and what none writes has the stated one.
pub fn origin_examples()
    ensures written { WrittenOnes }
    ensures unwritten { UnwrittenOnes }
{}

/// What a Firebase SDK asks for is known by its path and its query; nothing else is taken for it.
pub fn protocol_examples()
    ensures sdks { SdksAreKnown }
    ensures others { OthersAreNoSdks }
{}
