// What the paths of a call share, made once a call: the net with tidy rates, the tables made of it, and the steps of a path.
ghost use Rattle.net.specs.Record.{net_of};
ghost use Rattle.sde.specs.Ready.{Ready};

use net::LentNet;

// A path shows the states at n instants; a substep is dt long, and root is the square root of dt.
#[derive(Clone, Copy)]
pub struct Run<'a> {
    pub net: LentNet<'a>,
    pub changes: &'a [f64; 2048],
    pub skips: &'a [usize; 2112],
    pub ends: &'a [usize; 64],
    pub n: usize,
    pub dt: f64,
    pub root: f64,
    pub ghost ready: { Ready (net_of net) changes.now skips.now ends.now n dt root },
}
