//! The texts of replies, of a tree and of parts that are put together.
ghost use Rattle.std.specs.Prelude.{◌≡◌, ◌<◌, [], List, IfOk};
ghost use Rattle.std.specs.List.{AllByRecursion};
ghost use Rattle.yp_schema.specs.declared.schema.SchemaNode.{SchemaNode};
ghost use Rattle.yp_schema.specs.Datastore.{AreWritable};

use std::alloc::Global;
use std::test::Fail;
use yp_base::memory::NoMemory;
use yp_base::notice::Notice;
use yp_base::series::Series;
use yp_base::txt::text_of;
use yp_edit::fault::Tag;
use yp_journal::reply::Reply;
use yp_receiver::holdings::Holdings;
use yp_report::replied::Replied;
use yp_report::replies::replies_text;
use yp_report::texts::join_texts;
use yp_report::trees::push_trees;
use yp_schema::schema::Schema;
use yp_terms::refused::Refused;

const REPLIES: &str =
    "reply 1 0 1 {\"id\":2147483648}\nreply 2 1 1 {\"ok\":true}\nreply 3 2 1 {\"edit-id\":\"a\",\"error\":\"data-missing\",\"path\":\"/acme:port=eth0/name\"}\nreply 4 0 2 {\"error\":\"invalid-value\",\"member\":\"id\"}\n";

// An edit of a port's name is refused.
fn refused_edit(alloc: Global) -> Result<Reply, NoMemory> {
    Ok(Reply::Edit {
        edit_id: text_of(alloc, "a")?,
        tag: Tag::DataMissing,
        path: Some(text_of(alloc, "/acme:port=eth0/name")?),
    })
}

/// Replies of two lanes, and of none.
fn some_replies(alloc: Global) -> Result<Vec<Replied>, NoMemory> {
    Ok(vec![in alloc;
        Replied {
            lane: 0,
            index: 1,
            reply: Reply::Id(2147483648),
        },
        Replied {
            lane: 1,
            index: 1,
            reply: Reply::Done,
        },
        Replied {
            lane: 2,
            index: 1,
            reply: refused_edit(alloc)?,
        },
        Replied {
            lane: 0,
            index: 2,
            reply: Reply::Registry(Refused::InvalidId),
        },
    ]?)
}

#[test]
fn each_reply_has_its_position_and_its_lane(rt: HostRuntime) -> Result<(), Fail> {
    let alloc = rt.alloc();
    let text = replies_text(alloc, some_replies(alloc)?)?;
    assert_eq!(rt; text.as_str(), REPLIES);
    Ok(())
}

// What a receiver holds after a full update without rows.
fn no_rows_held(alloc: Global) -> Result<Holdings, NoMemory>
    ensures { IfOk result (λ trees. (nodes : List SchemaNode) → AllByRecursion (λ tree. AreWritable nodes [] tree.1) trees) }
{
    let mut trees = Holdings::new(alloc);
    let rows = Series::from_vec(Vec::new(alloc));
    trees.hear(alloc, Notice::Full { id: 9, rows })?;
    Ok(trees)
}

// The lines of what the receiver noc holds.
fn lines_of(alloc: Global, schema: &Schema, trees: Holdings) -> Result<String, NoMemory>
    requires { AllByRecursion (λ tree. AreWritable schema.now [] tree.1) trees }
{
    let mut text = String::new(alloc);
    push_trees(alloc, &mut text, schema, "noc", trees)?;
    Ok(text)
}

#[test]
fn a_tree_without_rows_is_an_empty_object(rt: HostRuntime) -> Result<(), Fail> {
    let alloc = rt.alloc();
    let schema = Schema::read(alloc, &[])?;
    let trees = no_rows_held(alloc)?;
    let text = lines_of(alloc, &schema, trees)?;
    assert_eq!(rt; text.as_str(), "tree noc 9 {}\n");
    Ok(())
}

#[test]
fn texts_are_joined_in_their_order(rt: HostRuntime) -> Result<(), Fail> {
    let alloc = rt.alloc();
    let mut parts = Vec::new(alloc);
    for part in ["to noc {}\n", "", "end\n"] {
        parts.push(String::from_str(alloc, part)?)?;
    }
    let text = join_texts(alloc, parts)?;
    assert_eq!(rt; text.as_str(), "to noc {}\nend\n");
    Ok(())
}
