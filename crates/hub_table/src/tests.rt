ghost use Rattle.std.specs.Prelude.{◌≡◌, ◌<◌, [], true, OnOk};

use super::*;
use crate::connections::Connections;
use std::test::*;
use ws_kinds::{Config, Conn, Phase};

/// Accepts the connections 1, 2 and 5.
fn accept_three(table: &mut Connections) -> Result<(), Fail>
    requires unnamed { table.old.named ≡ 0 }
    requires empty { table.old.entries ≡ [] }
    requires room { table.old.config.max_conns ≡ 3 }
{
    table.accept(Conn(1)).ok().ok_or("memory")?;
    table.accept(Conn(2)).ok().ok_or("memory")?;
    table.accept(Conn(5)).ok().ok_or("memory")?;
    Ok(())
}

/// Accepts a connection.
fn accept(table: &mut Connections, conn: Conn) -> Result<(), Fail>
    requires { table.old.named < conn.0 }
    ensures { OnOk result (table.new.named ≡ conn.0) }
{
    if table.is_full() {
        return Err(Fail::new("room"));
    }
    table.accept(conn).ok().ok_or("memory")?;
    Ok(())
}

/// A connection in phase Head opens.
fn open(table: &mut Connections, conn: Conn)
    ensures { table.new.named ≡ table.old.named }
{
    if let Some(Phase::Head) = table.phase(conn) {
        table.enter(conn, Phase::Open);
    }
}

/// The peer closes a connection that is open.
fn close(table: &mut Connections, conn: Conn) {
    if let Some(Phase::Open) = table.phase(conn) {
        table.close(conn, Phase::Ending, 1001, b"bye");
    }
}

/// A connection that is open is gone.
fn leave(table: &mut Connections, conn: Conn)
    ensures { table.new.named ≡ table.old.named }
{
    if let Some(Phase::Open) = table.phase(conn) {
        table.leave(conn);
    }
}

/// A connection that is ending is gone.
fn leave_ending(table: &mut Connections, conn: Conn) {
    if let Some(Phase::Ending) = table.phase(conn) {
        table.leave(conn);
    }
}

#[test]
fn closed_events_come_in_order(rt: HostRuntime) -> Result<(), Fail> {
    let config = Config::checked(125, 1_000, 30, 60, 10, 3).ok_or("numbers")?;
    let mut table = Connections::new(rt.alloc(), config).ok().ok_or("memory")?;
    assert_eq!(rt; table.max_message(), 125);
    assert!(rt; !table.is_full());
    accept_three(&mut table)?;
    assert!(rt; table.is_full());
    assert_eq!(rt; table.phase(Conn(1)), Some(Phase::Head));
    assert_eq!(rt; table.phase(Conn(3)), None);
    open(&mut table, Conn(2));
    open(&mut table, Conn(5));
    leave(&mut table, Conn(5));
    close(&mut table, Conn(2));
    assert_eq!(rt; table.next_ending(Conn(0)), Some(Conn(2)));
    assert_eq!(rt; table.next_ending(Conn(2)), None);
    assert_eq!(rt; table.phase(Conn(5)), Some(Phase::Gone));
    for (conn, code, reason) in [(2, 1001, b"bye".as_slice()), (5, 1006, b"")] {
        let parting = table.next_closed().ok_or("a Closed event")?;
        assert_eq!(rt; parting.conn, Conn(conn));
        assert_eq!(rt; parting.code, code);
        assert_eq!(rt; parting.reason.as_slice(), reason);
    }
    assert!(rt; table.next_closed().is_none());
    assert_eq!(rt; table.phase(Conn(2)), Some(Phase::Ending));
    assert_eq!(rt; table.phase(Conn(5)), None);
    assert_eq!(rt; table.count(), 2);
    Ok(())
}

/// The connection whose Closed event is told next.
fn next_told(table: &mut Connections) -> Option<Conn>
    ensures { table.new.named ≡ table.old.named }
{
    match table.next_closed() {
        Some(parting) => Some(parting.conn),
        None => None,
    }
}

/// Accepts and opens the connections 1 to 8, at most four at a time. After each, the one that stands beside it is gone and
/// told, so that the next takes its place in the slab; 0 stands for nobody.
fn come_and_go(table: &mut Connections) -> Result<(), Fail>
    requires { table.old.named ≡ 0 }
{
    'rows: for (row, gone) in [0, 0, 1, 3, 2, 0, 6, 4].iter().enumerate() {
        let conn = Conn(row as u64 + 1);
        accept(table, conn)?;
        open(table, conn);
        leave(table, Conn(*gone));
        if next_told(table).unwrap_or(Conn(0)) != Conn(*gone) {
            return Err(Fail::new("another Closed event"));
        }
    }
    Ok(())
}

#[test]
fn places_are_used_again(rt: HostRuntime) -> Result<(), Fail> {
    let config = Config::checked(125, 1_000, 30, 60, 10, 4).ok_or("numbers")?;
    let mut table = Connections::new(rt.alloc(), config).ok().ok_or("memory")?;
    come_and_go(&mut table)?;
    assert_eq!(rt; table.count(), 3);
    for number in [1, 2, 3, 4, 6, 9] {
        assert_eq!(rt; table.phase(Conn(number)), None);
    }
    for number in [5, 7, 8] {
        assert_eq!(rt; table.phase(Conn(number)), Some(Phase::Open));
    }
    Ok(())
}

#[test]
fn events_and_ends_are_in_order(rt: HostRuntime) -> Result<(), Fail> {
    let config = Config::checked(125, 1_000, 30, 60, 10, 4).ok_or("numbers")?;
    let mut table = Connections::new(rt.alloc(), config).ok().ok_or("memory")?;
    come_and_go(&mut table)?;
    for number in [8, 5, 7] {
        close(&mut table, Conn(number));
    }
    for (after, next) in [
        (0, Some(5)),
        (5, Some(7)),
        (6, Some(7)),
        (7, Some(8)),
        (8, None),
    ] {
        assert_eq!(rt; table.next_ending(Conn(after)), next.map(Conn));
    }
    leave_ending(&mut table, Conn(7));
    for next in [Some(5), Some(7), Some(8), None] {
        assert_eq!(rt; next_told(&mut table), next.map(Conn));
    }
    Ok(())
}
