// The texts of the help, in lines of at most 80 columns.

pub const INIT_ABOUT: &str = "Makes a folder that works with a team's store

Makes DIR, and in it .sundr with the team, the server, the user and a log.
Prints the digest of the team, which all its members compare, and takes the
commits that the server has. So

    sundr init team --server localhost:7000 --team team.txt --user ann --key ann

makes the folder `team`, for the user `ann` with the key that `sundr keygen
--out ann` made. In it, or with --in team, the other commands work. The server
is on this machine, or is reached through a tunnel, such as ssh makes with
`-L 7000:localhost:7000`.

The file of the team has a line `sundr team 1`, and behind it a line for each
user, in the same order for all: a name, a space and the public key.";

pub const PUT_ABOUT: &str = "Writes files, and folders with -r, to the store

A folder is put as PATH, and a file too, but into PATH where that is a folder.
With / behind PATH, and where there are several, all go into PATH.
What is there already isn't written again, so a put that was broken off goes on
when it is given once more. A file that another user has changed since it was
last got here is left as it is, unless --over is given. Small files go together,
up to 120 in one commit, which an undo takes back as a whole; with --each every
file has a commit of its own. So

    sundr put -n -r report /

tells what would be written of the folder `report`, in how many operations, and
without -n writes it to /report.";

pub const GET_ABOUT: &str = "Writes a file, or a folder with -r, of the store to LOCAL

A folder is written as LOCAL, and a file too, but into LOCAL where that is a
folder. With / behind LOCAL it goes into that.
A file comes beside its place and is then renamed, so none is half there; what
is the same is left. A local file that was changed since it was last got is left
as it is, unless --over is given. So

    sundr get /report/plan plan

writes the file /report/plan to `plan`.";

pub const LIST_ABOUT: &str = "Tells the names of a folder, a folder's with / behind

With -l it tells of each its size, the last commit that changed it, and who made
that. PATH is / where none is given.";

pub const CAT_ABOUT: &str = "Writes the bytes of a file to standard output";

pub const FOLDERS_ABOUT: &str = "Makes folders

With -p those above that are lacking are made too, and one that is there already
is no fault.";

pub const MOVE_ABOUT: &str = "Gives a file or a folder another name

A file may go to another folder. A folder stays in its folder. So

    sundr mv /report/plan /report/old-plan

renames a file.";

pub const REMOVE_ABOUT: &str = "Takes names away

With -r folders too, with all that is in them, the deepest first. An undo brings
back what was taken away.";

pub const LINK_ABOUT: &str = "Gives a file one name more

The file has both names then: what is written under one is read under the other.";

pub const HISTORY_ABOUT: &str = "Tells the commits, the newest first

A line has the number, who made it, what it did, and whether it was undone.
Commits of one put are one line, with the first number and the last. With PATH
it tells those that changed that file or folder. So

    sundr history -n 10 /report

tells the last ten lines of /report.";

pub const SHOW_ABOUT: &str = "Tells all that is known of a commit

Who made it, which of his it is, its digest, when it was seen here, with which
leaf it was signed, what it did, and which commits block it or have undone it.";

pub const DIFF_ABOUT: &str = "Tells how a commit changed a file

Prints the bytes that it wrote beside those that stood there, a text line by
line.";

pub const UNDO_ABOUT: &str = "Takes back operations of one's own

N is the number of a commit, as `sundr history` tells it, and N..M are all of
one's own from N to M, the latest first. So

    sundr undo 198..214

takes back a put of several commits. One that others rest on is blocked until
those are undone: --why tells which these are and who made them, the latest
first, and --with-blockers undoes them too, where all are one's own, and else
nothing.";

pub const STATUS_ABOUT: &str = "Tells where things stand

The server, the last commit that was seen and the digest of the list up to it,
one's own last commit, and how many leaves of the key are left.";

pub const COMPARE_ABOUT: &str = "Compares another user's list with one's own

NUMBER and GROUPS are what `sundr status` tells there: how many commits the list
has, and its digest, or the first groups of it. So

    sundr compare 214 3f1a77c0 9be04d52

tells whether both were shown the same first 214 commits, or the server has lied
to one of them. Each group that is left out makes it easier to be wrong: two
groups tell two lists apart that nobody chose, eight any two.";

pub const VERIFY_ABOUT: &str = "Checks the whole log again

Each signature and each change is checked, on all cores, and that what is held
is what the log says. It needs no server and no key.";

pub const REKEY_ABOUT: &str = "Goes on to a new key

A key signs 32 or 1,024 times. The new one is made of the system's random bytes,
the old one's last leaf signs it, and the commit tells the others. Commands do
it by themselves where leaves run out.";

pub const WHERE_ABOUT: &str = "Tells where the server is, or takes another place for it

    sundr where localhost:7001

has each command from now on connect there. What the server shows there is
checked against the log as before.";
