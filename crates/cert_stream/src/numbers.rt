//! The numbers of a certificate.

ghost use Rattle.std.specs.Prelude.{◌<◌, ◌^◌};
ghost use Rattle.std.specs.List.{AllByRecursion};
ghost use Rattle.cert_format.specs.Limits.{HasNumber};

use mrt_graph::CertNode;

/// The number of a root and those of all nodes have 32 bits.
pub fn numbers_fit(root: u32, nodes: &[CertNode])
    ensures root { root < 2 ^ 32 }
    ensures nodes { AllByRecursion HasNumber nodes.now }
{
    for node in nodes {
        number_fits(node.id.number);
    }
    number_fits(root);
}

/// A number has 32 bits.
fn number_fits(number: u32)
    ensures { number < 2 ^ 32 }
{}
