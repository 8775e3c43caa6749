// The wire of an edge, given back.
ghost use Rattle.std.specs.Prelude.{◌≡◌, ◌<◌, ◌≤◌, suc};
ghost use Rattle.outside.specs.Faults.{HasRisen};
ghost use Rattle.outside.specs.Links.{HasMet, faults_of};
ghost use Rattle.job_ends.specs.Returning.{GaveBack};

use outside::{Links, Wire};

/// Lets the ends of its data link compare what they have seen, and gives a wire back.
pub fn give_back<N: Links>(net: &mut N, wire: Wire<N::Out, N::In>)
    requires belong { N.belong (N.Out.line wire.data_out) (N.In.line wire.data_in) }
    requires lent { 0 < N.lent net.old }
    ensures met { HasMet (N.Out.sent wire.data_out) (N.Out.finished wire.data_out) (N.In.got wire.data_in) (N.In.ended wire.data_in) }
    ensures lent { suc (N.lent net.new) ≡ N.lent net.old }
    ensures never_falls { N.faults net.old ≤ N.faults net.new }
    ensures kept { GaveBack N.In.got N.In.ended (N.wires net.old) (N.wires net.new) wire }
    ensures fault { 0 < faults_of N.Out.faults N.In.faults wire → HasRisen (N.faults net.old) (N.faults net.new) }
{
    let mut wire = wire;
    net.meet(&mut wire.data_out, &mut wire.data_in);
    net.back(wire);
}
