//! The register.

ghost use Rattle.std.specs.Prelude.{◌≡◌, ◌⊎◌, ◌≤◌, ◌<◌, false, length, IfOk, IfErr};
ghost use Rattle.sqlite.specs.Held.{state};
ghost use Rattle.lpis_lineage.specs.Order.{IsAscending};
ghost use Rattle.lpis_lineage.specs.Tracings.{AreDescendants, AreTraced, most_asked};
ghost use Rattle.lpis_lineage.specs.Tracings.{reached_by};
ghost use Rattle.lpis_register_rows.specs.Shapes.{shape_ids};
ghost use Rattle.lpis_register.specs.Accepting.{IsAccepted, WasMadeFor};
ghost use Rattle.lpis_register.specs.Failing.{FailsToStore, HasReadCause, HasStoreCause};
ghost use Rattle.lpis_register.specs.Answering.{AnswersRelease};
ghost use Rattle.lpis_register.specs.Faults.{IsStoreFault};
ghost use Rattle.lpis_register.specs.HistoryAnswers.{IsTrace, IsUnknown, ReadsHistory};
ghost use Rattle.lpis_register.specs.Holdings.{Candidate, candidate, holdings};
ghost use Rattle.lpis_register.specs.Publishing.{Publishes, Stores};
ghost use Rattle.lpis_register.specs.Running.{RunsAccepted, RunsRelease};
ghost use Rattle.lpis_register.specs.declared.fault.PublishFault.TheVariants.{Memory, Store};
ghost use Rattle.lpis_register.specs.declared.fault.PublishFault.TheVariants.{Unknown};

use crate::accepting::{Accepted, Writing, accept_parcels};
use crate::committing::commit_release;
use crate::fault::PublishFault;
use crate::opening::Loaded;
use crate::reading::{copied_shapes, read_history};
use crate::sound::SoundParcels;
use crate::tracing::trace;
use lpis_cert::Cert;
use lpis_lineage::{Change, History, Row, Tracing, descendants};
use lpis_register_rows::KeptShape;
use lpis_tables::Id;
use sqlite::{Alter, Connection};
use std::alloc::{AllocError, Global};
use std::marker::Model;

/// Releases with their spans and rows, and the shapes of the last one's parcels, over any store of
/// `sqlite`. Contracts see its database in `conn`, and in `held` the history that the tables say
/// with the shapes that they keep. The calls of this crate alone change them.
#[derive(Drop)]
pub struct Register<S: Alter> {
    /// The database, in which no transaction is open.
    conn: Connection<S>,
    /// The history that its tables say.
    history: History,
    /// The shapes that they keep: those of the last release's parcels, ascending by identifier.
    shapes: Vec<KeptShape>,
    alloc: Global,
}

impl<S: Alter> Model for Register<S> {
    ghost use Rattle.std.specs.Prelude.{◌≡◌, false};
    ghost use Rattle.std.specs.Coded.{codes};
    ghost use Rattle.sqlite.specs.Held.{held_code};
    ghost use Rattle.lpis_lineage.specs.Order.{IsAscending};
    ghost use Rattle.lpis_lineage.specs.Tracings.{AreDescendants, AreTraced, most_asked};
    ghost use Rattle.lpis_lineage.specs.Tracings.{reached_by};
    ghost use Rattle.lpis_register_rows.specs.Shapes.{shape_ids};
    ghost use Rattle.lpis_register.specs.Holdings.{RegisterState};

    ghost Value = { RegisterState S };

    ghost coded = { Prim.hlevel (codes, held_code S.code) };

    ghost view = { λ r. record {
      conn = r.conn;
      held = record { history = r.history; shapes = r.shapes.items };
    } };

    ghost invariant = { λ r. (r.conn.in_transaction ≡ false)
        × IsAscending (shape_ids r.shapes.items) };
}

impl<S: Alter> Register<S> {
    /// The register of a database whose tables say this.
    pub(crate) fn of(alloc: Global, conn: Connection<S>, told: Loaded) -> Register<S>
        requires autocommit { conn.in_transaction ≡ false }
        ensures conn { result.conn ≡ conn }
        ensures held { result.held ≡ holdings told.history told.shapes.items }
    {
        let Loaded { history, shapes } = told;
        Register {
            conn,
            history,
            shapes,
            alloc,
        }
    }

    /// The history, lent. Nothing is read, and it takes no memory.
    pub fn current(&self) -> &History
        ensures { result.now ≡ self.now.held.history }
    {
        &self.history
    }

    /// The shapes of the last release's parcels, ascending by identifier, lent. Nothing is read,
    /// and it takes no memory.
    pub fn current_shapes(&self) -> &[KeptShape]
        ensures kept { result.now ≡ self.now.held.shapes }
        ensures ascending { IsAscending (shape_ids result.now) }
    {
        self.shapes.as_slice()
    }

    /// Copies of the shapes of the last release's parcels, ascending by identifier. Those of
    /// releases that were published in version 1 or 2 are not there.
    pub fn shapes(&mut self) -> Result<Vec<KeptShape>, PublishFault>
        ensures kept { IfOk result (λ copies. copies.items ≡ self.old.held.shapes) }
        ensures same { self.new ≡ self.old }
        ensures memory { IfErr result (λ fault. fault ≡ Memory) }
    {
        match copied_shapes(self.alloc, self.shapes.as_slice()) {
            Ok(copies) => Ok(copies),
            Err(_) => Err(PublishFault::Memory),
        }
    }

    /// Refuses a release that the check said yes to, or a country whose regions joined, that may
    /// not follow the history: where its year is not above the last one's; else where its lineage
    /// is refused; else where an exact split or merge needs a shape of the last release that is not
    /// kept; else where the certificate's blocks don't show its exact splits and merges. With Ok
    /// all that writing it needs is made, and nothing is changed yet.
    pub fn accept<M: SoundParcels>(
        &self,
        year: u16,
        map: &M,
        rows: &[Row],
        cert: &Cert,
    ) -> Result<Accepted, PublishFault>
        ensures { AnswersRelease (candidate year (M.parcels map.now) cert.now.exact rows.now)
            self.now.held result }
    {
        let kept = self.shapes.as_slice();
        let parcels = map.sound_parcels();
        accept_parcels(self.alloc, &self.history, kept, year, parcels, rows, cert)
    }

    /// Publishes a release that was accepted for this history and these shapes, in one transaction,
    /// which is committed once the tables were read back and say it, whatever tables there are:
    /// after a crash the tables have it whole or not at all, and always where the answer was Ok.
    /// With an error the history and the shapes are as they were.
    pub fn commit(&mut self, accepted: Accepted) -> Result<Change, PublishFault>
        requires made { WasMadeFor self.old.held accepted }
        ensures publishes { (c : Candidate) → IsAccepted c self.old.held accepted
            → Publishes c self.old.held self.new.held result }
        ensures stores { (c : Candidate) → IsAccepted c self.old.held accepted
            → Stores S.Store c self.old self.new result }
        // With Ok the engine ran the statements of the release, and no others, and committed that;
        // and a crash leaves what it left before, or exactly that.
        ensures runs { RunsRelease S.Store accepted self.old self.new result }
        ensures untouched { IfErr result (λ fault. IsStoreFault fault
            ⊎ ((fault ≡ Memory) × (self.new.conn ≡ self.old.conn))) }
        ensures cause { IfErr result (λ fault. HasStoreCause S.Store accepted self.old self.new
            (fault ≡ Store)) }
    {
        let Accepted { live, writing } = accepted;
        let kept = self.shapes.as_slice();
        match commit_release(
            self.alloc,
            &mut self.conn,
            &mut self.history,
            kept,
            live,
            &writing,
        ) {
            Ok(()) => {
                let Writing { change, shapes, .. } = writing;
                self.shapes = shapes;
                Ok(change)
            }
            Err(fault) => Err(fault),
        }
    }

    /// Publishes a release that the check said yes to, or a country whose regions joined: its
    /// parcels' identifiers become live, the history has it at its end, and its parcels' shapes are
    /// kept in place of the last release's. Its exact splits and merges are such at every rational
    /// point. It is refused as `accept` refuses it; a refusal leaves the history and the shapes as
    /// they were.
    ///
    /// The whole release is one transaction, in which the tables are read back before it is
    /// committed. That takes memory; where it is refused, the transaction is undone. After a crash
    /// the tables have the release whole or not at all, and always where the answer was Ok.
    pub fn publish<M: SoundParcels>(
        &mut self,
        year: u16,
        map: &M,
        rows: &[Row],
        cert: &Cert,
    ) -> Result<Change, PublishFault>
        ensures publishes { Publishes (candidate year (M.parcels map.now) cert.now.exact rows.now)
            self.old.held self.new.held result }
        ensures stores { Stores S.Store (candidate year (M.parcels map.now) cert.now.exact
            rows.now) self.old self.new result }
        // The engine ran the statements of the release, and no others, and committed that.
        ensures runs { RunsAccepted S.Store (candidate year (M.parcels map.now) cert.now.exact
            rows.now) self.old self.new result }
        ensures untouched { IfErr result (λ fault. IsStoreFault fault
            ⊎ (self.new.conn ≡ self.old.conn)) }
        // Such a fault comes where the release was accepted; `Store` where the database was shut,
        // its disk failed, the engine refuses one of the release's statements, or its tables then
        // are not read, or say something else.
        ensures cause { IfErr result (λ fault. IsStoreFault fault → FailsToStore S.Store
            (candidate year (M.parcels map.now) cert.now.exact rows.now) self.old self.new
            (fault ≡ Store)) }
    {
        match self.accept(year, map, rows, cert) {
            Ok(accepted) => self.commit(accepted),
            Err(fault) => Err(fault),
        }
    }

    /// Follows identifiers through the releases, all of them by one walk over the rows: no more
    /// than `MOST_ASKED`, each at its place.
    pub fn follow(&self, asked: &[Option<Id>]) -> Result<Tracing, AllocError>
        requires { length asked.now ≤ most_asked }
        ensures { IfOk result (AreTraced self.now.held.history asked.now) }
    {
        descendants(self.alloc, &self.history, asked)
    }

    /// The identifiers of the last release that chains of rows, from old to new, reach from an
    /// identifier, itself among them where it is live; ascending by bytes, each once. `Unknown`
    /// where it is in no release. It was asked at this place of the tracing.
    pub fn trace(&self, tracing: &Tracing, asker: usize, id: &Id) -> Result<Vec<Id>, PublishFault>
        requires asker { asker < most_asked }
        requires traced { AreDescendants self.now.held.history (reached_by asker tracing.now)
            id.now }
        ensures found { IfOk result (λ ids. IsTrace self.now.held.history id.now ids.items) }
        ensures unknown { IfErr result (λ fault. (fault ≡ Memory)
            ⊎ ((fault ≡ Unknown) × IsUnknown self.now.held.history id.now)) }
    {
        trace(self.alloc, &self.history, tracing, asker, id)
    }

    /// The history that the tables say, read from them. Nothing is changed.
    pub fn history(&mut self) -> Result<History, PublishFault>
        ensures reads { ReadsHistory (state S.Store self.old.conn) (state S.Store self.new.conn)
            result }
        // `Store` where the database was shut, its disk failed, or the engine refuses the query of
        // one of its tables.
        ensures cause { IfErr result (λ fault. HasReadCause (state S.Store self.old.conn)
            (state S.Store self.new.conn) (fault ≡ Store)) }
        ensures same { self.new.held ≡ self.old.held }
    {
        read_history(self.alloc, &mut self.conn)
    }

    /// The database.
    pub fn into_connection(self) -> Connection<S>
        ensures same { result ≡ self.conn }
        ensures autocommit { result.in_transaction ≡ false }
    {
        let Register { conn, .. } = self;
        conn
    }
}
