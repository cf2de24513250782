//! That certificates fit their files.

ghost use Rattle.cert_format.specs.Limits.{IsCertFile};
ghost use Rattle.cert_stream.specs.OfGraph.{IsOfGraph};
ghost use Rattle.mrt_graph.specs.declared.cert.CertFile.{CertFile};

/// A law: the certificate of a graph and a root, where the numbers of the graph's nodes have 32 bits, is a certificate file.
pub fn certificates_fit_their_files()
    ensures { (file : CertFile) → IsOfGraph file → IsCertFile file }
{}
