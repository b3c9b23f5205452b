//! Which ledger a parcel's mark is of.
ghost use Rattle.atomic_table.specs.Seated.{TableId, table_id_coded};
ghost use base.Fml.{ftrue};

use std::marker::Model;

/// Which table it is. No value of it is made: it stands in views alone.
pub struct Place {
    pub ghost table: { TableId } by { table_id_coded },
}

impl Model for Place {
    ghost also_owns = { λ _. ftrue };
}
