// The order of names.
ghost use Rattle.std.specs.Prelude.{◌≡◌};
ghost use Rattle.meaning.specs.Values.{bytes_before};

// Do the first bytes come before the second, a prefix first?
#[tactic(auto, using(crate::proofs::Ordered::slices_ordered))]
pub fn comes_before(a: &[u8], b: &[u8]) -> bool
    ensures { result ≡ bytes_before a.now b.now }
{
    a < b
}
