//! Laws of what is written by lists.

ghost use Rattle.cert_writer.specs.Laws.{FirstClaimsAreTrue, WrittenIsValid};

/// A law, and nothing to run: for a head that holds the first claim of each prefix that is owed is
/// true by whatever lists, so that claims can always be written; and where what the lists charge is
/// due, they are those of a valid certificate.
pub fn written_by_prices()
    ensures told { FirstClaimsAreTrue }
    ensures valid { WrittenIsValid }
{}
