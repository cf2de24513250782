//! The limits of the two versions.

ghost use Rattle.std.specs.Prelude.{◌<◌, ◌^◌};
ghost use Rattle.cert_format.specs.Limits.{IsCertFile, IsOfVersion};

use mrt_graph::CertFile;

/// What a certificate file keeps whose version is met, since its numbers have 32 bits.
/// It takes time in proportion to the nodes.
pub fn within_limits(f: &CertFile)
    requires { IsOfVersion f.now }
    ensures { IsCertFile f.now }
{
    let _root = f.root;
    let _count = f.cert.node_count();
    for node in f.cert.nodes() {
        number_fits(node.id.number);
    }
}

/// A number has 32 bits.
fn number_fits(number: u32)
    ensures { number < 2 ^ 32 }
{}
