//! Installations on two hosts, worked out: `specs/Examples.antt` has the statements.

ghost use Rattle.install_laws.specs.Examples.{BothCanInstall, BothAreCounted, LostPartIsMissed, LostAnswerIsMissed};
ghost use Rattle.install_laws.specs.Examples.{SecondTryCounts, CutHostIsMissed};

/// One try counts both hosts where nothing is lost; where the part or its acknowledgement is, it takes a second try;
/// and none helps where the cable of a host goes.
pub fn lost_packets()
    ensures can { BothCanInstall }
    ensures quiet { BothAreCounted }
    ensures part { LostPartIsMissed }
    ensures answer { LostAnswerIsMissed }
    ensures second_try { SecondTryCounts }
    ensures cut { CutHostIsMissed }
{}
