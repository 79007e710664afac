//! The laws.

ghost use Rattle.dmn_run_laws.specs.Chains.{ChainsFromInitKeepAnswered, ChainsFromMakeKeepAnswered, ChainsKeepAnswered};
ghost use Rattle.dmn_run_laws.specs.Fronts.{ImagesHaveFronts};

/// What a crash leaves between two machines has the commands of the one, and then a front of those until the other.
pub fn images_have_fronts()
    ensures { ImagesHaveFronts }
{}

/// Runs one behind the other, of `feed`, of `serve` and of what only reads, each on what a crash left of the one before: the
/// last image is own, and has each command that was answered in any of them, in order.
pub fn chains_keep_answered()
    ensures { ChainsKeepAnswered }
{}

/// So it is from what `init` left on, once it was done: the registry has the start record that `init` read.
pub fn chains_from_init_keep_answered()
    ensures { ChainsFromInitKeepAnswered }
{}

/// And from what `make` left on, once it was done: the registry has the commands of its run.
pub fn chains_from_make_keep_answered()
    ensures { ChainsFromMakeKeepAnswered }
{}
