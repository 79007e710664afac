//! A law about the definitions.

ghost use Rattle.dmn_outside.specs.Crashes.{CallsJoin};

/// Behind a call of the disk, done or not, an image of a crash since some moment was one before the call, or is one of a
/// crash since the call's own start. So calls and parts are joined to runs.
pub fn calls_join()
    ensures { CallsJoin }
{}
