//! Laws of filters, for the crates above; nothing runs.
ghost use Rattle.std.specs.Prelude.{◌≡◌, List, true};
ghost use Rattle.serde_json.specs.Data.{Data};
ghost use Rattle.yp_schema.specs.declared.schema.SchemaNode.{SchemaNode};
ghost use Rattle.yp_filter.specs.Filters.{Asked};
ghost use Rattle.yp_filter.specs.Fits.{filter_fits};
ghost use Rattle.yp_filter.specs.Reading.{filter_in};

/// A filter that is read is of the schema.
#[tactic(auto, using(crate::proofs::Fitting::read_filter_fits))]
pub fn a_filter_that_is_read_fits()
    ensures { (nodes : List SchemaNode) (json : Data) (asked : Asked) → filter_in nodes json ≡ Ok asked
        → filter_fits nodes asked ≡ true }
{}
