//! What the fourteen rules give: an accepted certificate is sound, and a file that is not accepted has one first fault.

ghost use Rattle.std.specs.Prelude.{◌≡◌, ◌≢◌, ◌<◌, ◌⊎◌, ℕ, IsSome, length};
ghost use Rattle.mrt_graph.specs.{declared.cert.CertFile.CertFile, declared.cert.Color.Color, Accepted.Accepted};
ghost use Rattle.mrt_graph.specs.{Certificate.IsCertificate, Certificate.row_of, FirstFault.FirstFault, Foldable.IsFoldable, Hop.color_hop};
ghost use Rattle.mrt_graph.specs.{Sound.Sound, Topology.Topology};

/// A law: the rows of each certificate that is accepted for a graph and its root are sound, whoever wrote it.
pub fn accepted_implies_sound()
    ensures { (g : Topology) (root : ℕ) (file : CertFile) → Accepted g root file
        → Sound g.links (length g.ids) (row_of file.cert) }
{}

/// A law: in each certificate that is accepted the link of each row touches the row's node, so that a color always goes
/// on.
pub fn accepted_rows_lead_on()
    ensures { (g : Topology) (root : ℕ) (file : CertFile) → Accepted g root file
        → (color : Color) (s t : ℕ) → s < length g.ids → t < length g.ids → s ≢ t
        → IsSome (color_hop g.links (row_of file.cert) color t s) }
{}

/// A law: in each certificate that is accepted the rows of two nodes without a common block are those that its other rows
/// say, so that a file can leave them out.
pub fn accepted_files_are_foldable()
    ensures { (g : Topology) (root : ℕ) (file : CertFile) → IsCertificate file.cert → Accepted g root file
        → IsFoldable file.cert }
{}

/// Laws: a certificate file is accepted for a graph and its root, or one of the fourteen rules is the first to fail;
/// never both, and the rule and its place are the only ones.
pub fn accepted_or_one_first_fault()
    ensures either { (g : Topology) (root : ℕ) (file : CertFile)
        → Accepted g root file ⊎ ((rule a b : ℕ) × FirstFault g root file rule a b) }
    ensures never_both { (g : Topology) (root : ℕ) (file : CertFile) (rule a b : ℕ)
        → Accepted g root file → FirstFault g root file rule a b → ⊥ }
    ensures one { (g : Topology) (root : ℕ) (file : CertFile) (rule a b number x y : ℕ)
        → FirstFault g root file rule a b → FirstFault g root file number x y
        → (rule ≡ number) × (a ≡ x) × (b ≡ y) }
{}
