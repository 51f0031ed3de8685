// Tables in a file, which no contract tells.
use crate::databases::open;
use db_keeper::{Keeper, KeeperFault};
use db_sqlite::SqliteKeeper;
use sml_syntax::Text;
use std::alloc::{AllocError, Global};
use std::path::PathBuf;
use std::process::Abort;
use std::rt::Runtime;
use std::test::Fail;
use std::{env, fs};
use web_data::{DbAns, DbCmd};

// The words of a command, with what a keeper answers.
const CALLS: [(&[&str], &str); 34] = [
    (&["all", "book"], "NoTable"),
    (&["create", "book"], "Done"),
    (&["create", "book"], "TableStands"),
    (&["all", "book"], "rows"),
    (&["insert", "book", "O'Hara", "hi there"], "Done"),
    (&["all", "book"], "rows;O'Hara|hi there"),
    (&["insert", "book", "O'Hara", "hi there"], "KeyStands"),
    (&["one", "book", "O'Hara"], "rows;hi there"),
    (&["one", "book", "o'hara"], "rows"),
    (&["insert", "book", "b", ""], "Done"),
    (&["insert", "book", "", "\"; drop table book"], "Done"),
    (&["insert", "book", "B", "1"], "Done"),
    (&["insert", "book", "a", "1"], "Done"),
    (&["insert", "book", "10", "1"], "Done"),
    (
        &["all", "book"],
        "rows;|\"; drop table book;10|1;B|1;O'Hara|hi there;a|1;b|",
    ),
    (&["delete", "book", "a"], "Done"),
    (&["delete", "book", "a"], "Done"),
    (&["one", "book", "a"], "rows"),
    (&["one", "Book", "b"], "NoTable"),
    (&["insert", "Book", "b", "2"], "NoTable"),
    (&["delete", "Book", "b"], "NoTable"),
    (&["create", "Book"], "Done"),
    (&["create", "BOOK"], "Done"),
    (&["insert", "Book", "b", "2"], "Done"),
    (&["insert", "BOOK", "b", "3"], "Done"),
    (&["one", "book", "b"], "rows;"),
    (&["one", "Book", "b"], "rows;2"),
    (&["one", "BOOK", "b"], "rows;3"),
    (&["all", "sqlite_schema"], "NoTable"),
    (&["create", "sqlite_schema"], "Done"),
    (&["insert", "sqlite_schema", "k", "v"], "Done"),
    (&["create", "Order"], "Done"),
    (&["create", "table"], "Done"),
    (&["all", "table"], "rows"),
];

// The same after the file was opened again.
const AGAIN: [(&[&str], &str); 4] = [
    (&["create", "book"], "TableStands"),
    (
        &["all", "book"],
        "rows;|\"; drop table book;10|1;B|1;O'Hara|hi there;b|",
    ),
    (&["all", "BOOK"], "rows;b|3"),
    (&["all", "sqlite_schema"], "rows;k|v"),
];

fn command(alloc: Global, words: &[&str]) -> Result<DbCmd, Fail> {
    let mut texts = Vec::new(alloc);
    for word in words {
        texts.push(Text::from_bytes(alloc, word.as_bytes())?)?;
    }
    let last = texts.pop();
    let before = texts.pop();
    match (words, texts.pop(), before, last) {
        (["create", _], _, _, Some(table)) => Ok(DbCmd::Create(table)),
        (["all", _], _, _, Some(table)) => Ok(DbCmd::All(table)),
        (["one", _, _], _, Some(table), Some(key)) => Ok(DbCmd::One(table, key)),
        (["delete", _, _], _, Some(table), Some(key)) => Ok(DbCmd::Delete(table, key)),
        (["insert", ..], Some(table), Some(key), Some(value)) => Ok(DbCmd::Insert(
            table, key, value,
        )),
        _ => Err("no command")?,
    }
}

// An answer, as the table spells it.
fn spelled(alloc: Global, answer: &DbAns) -> Result<Vec<u8>, AllocError> {
    let mut all = Vec::new(alloc);
    match answer {
        DbAns::Done => all.extend_from_slice(b"Done")?,
        DbAns::NoTable => all.extend_from_slice(b"NoTable")?,
        DbAns::TableStands => all.extend_from_slice(b"TableStands")?,
        DbAns::KeyStands => all.extend_from_slice(b"KeyStands")?,
        DbAns::Fault(_) => all.extend_from_slice(b"Fault")?,
        DbAns::Rows(rows) => {
            all.extend_from_slice(b"rows")?;
            for row in rows.as_slice() {
                let mut mark = b';';
                for text in row.as_slice() {
                    all.push(mark)?;
                    all.extend_from_slice(text.as_bytes())?;
                    mark = b'|';
                }
            }
        }
    }
    Ok(all)
}

fn answer<K: Keeper>(alloc: Global, keeper: &mut K, words: &[&str]) -> Result<Vec<u8>, Fail> {
    match keeper.act(&command(alloc, words)?) {
        Ok(answer) => Ok(spelled(alloc, &answer)?),
        Err(KeeperFault::Failed) => Ok(Vec::from_slice(alloc, b"Failed")?),
        Err(KeeperFault::NoMemory) => Err("no memory")?,
    }
}

fn answers<K: Keeper>(
    rt: &(impl Abort + AllocGlobal),
    keeper: &mut K,
    calls: &[(&[&str], &str)],
) -> Result<(), Fail> {
    for (words, want) in calls {
        assert_eq!(rt;
            answer(rt.alloc(), keeper, words)?.as_slice(),
            want.as_bytes()
        );
    }
    Ok(())
}

// An empty folder of its own, which is left with the file for sqlite3 to read.
fn fresh_folder(rt: &(impl Runtime + AllocGlobal)) -> Result<PathBuf, Fail> {
    let folder = env::temp_dir(rt)?.join(rt.alloc(), "smlserver_test_book")?;
    if fs::exists(rt, folder.as_str())? {
        fs::remove_dir_all(rt, folder.as_str())?;
    }
    fs::create_dir(rt, folder.as_str())?;
    Ok(folder)
}

#[test]
fn keeps_tables_in_a_file(rt: HostRuntime) -> Result<(), Fail> {
    let alloc = rt.alloc();
    let file = fresh_folder(&rt)?.join(alloc, "guests.db")?;
    let mut keeper = SqliteKeeper::adopt(alloc, open(&rt, file.as_str())?)?;
    answers(&rt, &mut keeper, &CALLS)?;
    assert_eq!(rt; keeper.faults(), 0);
    // a name that no statement has, and then tables and rows as before
    answers(&rt, &mut keeper, &[(&["create", "bo\"ok"], "Failed")])?;
    assert_eq!(rt; keeper.faults(), 1);
    drop(keeper);
    let mut keeper = SqliteKeeper::adopt(alloc, open(&rt, file.as_str())?)?;
    answers(&rt, &mut keeper, &AGAIN)?;
    let mut absent = SqliteKeeper::adopt(alloc, None)?;
    answers(
        &rt,
        &mut absent,
        &[(&["all", "book"], "Failed"), (&["create", "t"], "Failed")],
    )?;
    assert_eq!(rt; absent.faults(), 2);
    Ok(())
}
