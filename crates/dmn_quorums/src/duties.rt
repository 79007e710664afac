//! When a block has to have a commitment.

ghost use Rattle.std.specs.Prelude.{◌≡◌, ◌<◌};
ghost use Rattle.dmn_quorums.specs.Duty as spec;

use dmn_rows::QuorumParams;

/// The numbers of a type, where the profile has that.
pub fn params_of(quorums: &[Option<QuorumParams>], kind: u8) -> Option<QuorumParams>
    ensures { result ≡ spec.params_of quorums.now kind }
{
    for quorum in quorums {
        if let Some(params) = quorum {
            if params.kind == kind {
                return Some(*params);
            }
        }
    }
    None
}

/// The height of the block from which members are drawn for a commitment at `height`.
pub fn base_of(params: &QuorumParams, height: u32) -> u32
    requires { 0 < params.now.interval }
    ensures { result ≡ spec.base_of params.now height }
{
    height - height % params.interval
}

/// Whether a commitment of the type may be mined at `height`: its base isn't below the first block, at `start`, and it
/// is so far behind its base.
pub fn in_window(params: &QuorumParams, start: u32, height: u32) -> bool
    requires { 0 < params.now.interval }
    ensures { result ≡ spec.is_in_window params.now start height }
{
    let past = height % params.interval;
    start <= base_of(params, height) && params.from <= past && past <= params.to
}

/// Whether a block at `height` has to have a commitment of the type; `done` tells whether an earlier block has one for
/// the base that isn't null. Where it hasn't, it may have none.
pub fn duty(params: &QuorumParams, start: u32, height: u32, done: bool) -> bool
    requires { 0 < params.now.interval }
    ensures { result ≡ spec.has_duty params.now start height done }
{
    in_window(params, start, height) && !done
}
