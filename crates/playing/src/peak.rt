// The peak that a path is played on with: a carried one may be lower than its tokens, and the starts of a step do not look at it.
ghost use Rattle.std.specs.Prelude.{◌≡◌, ◌&&◌, List, Float};
ghost use Rattle.net.specs.Net as Net;
ghost use Rattle.net.specs.Readable as Record;
ghost use Rattle.net.specs.Record.{net_of};
ghost use Rattle.net.specs.Tests as Tests;
ghost use Rattle.net.specs.declared.Net.{Net as NetRecord};
ghost use Rattle.rules.specs.Enabled as Enabled;
ghost use Rattle.rules.specs.Gillespie.{Accepted};
ghost use Rattle.rules.specs.Run.{End};
ghost use Rattle.rules.proofs.Play as Play;
ghost use Rattle.engine.specs.Engine as Engine;
ghost use Rattle.engine.specs.Limits as Limits;
ghost use Rattle.playing.specs.Stepping as Stepping;

use crate::run::Standing;
use engine::marking;
use net::LentNet;

// Is a delayed transition enabled?
fn some_ready<'a>(net: &LentNet, limit: &'a [u64; 1024], counts: &[u64; 32]) -> bool
    requires { let net = net_of net.now in Engine.Tidy net × Limits.Limits net limit.now × Engine.Counts counts.now }
    ensures { let net = net_of net.now in result ≡ Tests.any (λ (t : Net.Transition). Net.timed t && Enabled.enabled (Record.readable net) (Engine.marking net.places counts.now) t)
        (Record.readable net).transitions }
{
    for j in 0..net.transitions {
        if 0.0 < net.delay[j] && marking::enabled(net, limit, counts, j) {
            return true;
        }
    }
    false
}

// The peak to go on with. Where it has the tokens already, or no step is to come, it is the peak that is carried. Else, if a timer will start, the tokens of
// now come in with that start; and if none will, they do not.
pub fn first_peak<'a>(
    net: &LentNet,
    limit: &'a [u64; 1024],
    counts: &'a [u64; 32],
    ats: &'a [f64; 256],
    owners: &'a [u64; 512],
    room: usize,
    last: f64,
    steps: u64,
    s: Standing,
) -> u64
    requires { let net = net_of net.now in Engine.Tidy net × Accepted (Record.readable net) × Limits.Limits net limit.now
        × Stepping.Resumes counts.now ats.now owners.now s.timers s.clock
        × (s.tokens ≡ Stepping.tokens_of (Stepping.state_of net counts.now ats.now owners.now s.timers s.clock s.rng.s)) }
    ensures { let net = net_of net.now in let from = (Stepping.state_of net counts.now ats.now owners.now s.timers s.clock s.rng.s) in
        Stepping.Topped room (Record.readable net) last steps from result
        × ((out : End) (xs : List Float) → Play.higher result (Play.play_within out room (Record.readable net) last steps xs from)
        ≡ Play.higher s.peak (Play.play_within out room (Record.readable net) last steps xs from)) }
{
    let many = s.tokens;
    let most = s.peak;
    if many <= most {
        return most;
    }
    if steps == 0 {
        return most;
    }
    if s.clock < last {
        if some_ready(net, limit, counts) {
            return many;
        }
    }
    most
}
