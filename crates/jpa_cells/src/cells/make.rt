//! The CREATE, and the transaction that makes the table.

ghost use Rattle.std.specs.Prelude.{◌≡◌, [], false, IsTrue, OnOk, OnErr};
ghost use Rattle.sqlite.specs.Held.{state};
ghost use Rattle.sqlite.specs.State.{HasCleanDisk, KeepsCommit, Survives};
ghost use Rattle.jpa_cells.specs.meaning.Schema.{no_schema};
ghost use Rattle.jpa_cells.specs.meaning.Content.{Makes, Made};
ghost use Rattle.jpa_cells.specs.cells.Calls.{Commits};

use sqlite::{Alter, Connection, Error, Transaction};

const CREATE: &str =
    "CREATE TABLE cell (t INTEGER NOT NULL, r BLOB NOT NULL, c INTEGER NOT NULL, v BLOB NOT NULL, PRIMARY KEY (t, r, c)) STRICT";

fn make_table<S: Alter>(tx: &mut Transaction<'_, S>) -> Result<usize, Error>
    requires inside { HasCleanDisk (state S.Store tx.old.conn.now) →
        IsTrue (state S.Store tx.old.conn.now).in_transaction }
    requires empty { HasCleanDisk (state S.Store tx.old.conn.now) →
        IsTrue (state S.Store tx.old.conn.now).is_open →
        (state S.Store tx.old.conn.now).now.schema ≡ no_schema }
    ensures same_reference { tx.new.conn.ghost_name ≡ tx.old.conn.ghost_name }
    ensures makes { HasCleanDisk (state S.Store tx.new.conn.now) →
        OnOk result (Makes (state S.Store tx.old.conn.now) (state S.Store tx.new.conn.now)) }
    ensures kept { HasCleanDisk (state S.Store tx.new.conn.now) →
        OnErr result (KeepsCommit (state S.Store tx.old.conn.now) (state S.Store tx.new.conn.now)) }
    ensures survives { Survives (state S.Store tx.old.conn.now) (state S.Store tx.new.conn.now)
        (λ _. ⊥) }
{
    tx.execute(CREATE, &[])
}

/// Makes the table, in a transaction of its own.
pub fn create<S: Alter>(conn: &mut Connection<S>) -> Result<(), Error>
    requires idle { conn.old.in_transaction ≡ false }
    requires empty { HasCleanDisk (state S.Store conn.old) →
        IsTrue (state S.Store conn.old).is_open → (state S.Store conn.old).now.schema
        ≡ no_schema }
    ensures { Commits S.Store Made (λ tables. tables ≡ (λ t. [])) conn.old conn.new result }
{
    let _idle = conn.is_autocommit();
    let mut tx = conn.transaction();
    make_table(&mut tx)?;
    tx.commit()?;
    Ok(())
}
