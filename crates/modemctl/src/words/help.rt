//! What stands behind the help of each subcommand: an example, the exit statuses, and where its formats stand; and the help of `--data`.

/// Behind the help of the program.
pub const PROGRAM: &str =
    "Example: printf '0 1 AT+CSQ\\n1 2 AT+CGATT?\\n' | modemctl bench\n\nExit status: 0 all is done; 1 a fault, named on standard error; 2 bad words or a bad line.\ndocs/modemctl.1 has every option, docs/FORMATS.md every format.";

/// Behind the help of `frames`.
pub const FRAMES: &str =
    "Example: echo 'F9 03 73 01 D7 F9' | modemctl frames\n\nExit status: 0 all is written; 1 a fault; 2 bad words, or a line with other than pairs of digits.\ndocs/FORMATS.md has the formats, under \"frames\".";

/// Behind the help of `replay`.
pub const REPLAY: &str =
    "Example: printf 'open 0\\nin f9037301d7f9\\n' | modemctl replay\n\nExit status: 0 all is written; 1 a fault; 2 bad words, or a bad line of the script or the dialect.\ndocs/FORMATS.md has the events, the output and the file of --dialect.";

/// Behind the help of `bench`.
pub const BENCH: &str =
    "Each line of the input is a caller, a connection from 1 to 61, and a command.\n\nExample: printf '0 1 AT+CSQ\\n1 2 AT+CGATT?\\n' | modemctl bench\n\nExit status: 0 all were told; 1 a fault; 2 bad words or a bad line.\ndocs/FORMATS.md has the formats, under \"bench\".";

/// Behind the help of `sim`.
pub const SIM: &str =
    "With --data D=PATH calls on connection D carry octets; ATD*99# begins one. From the CONNECT line to the end of the call, what the client sends on D goes to PATH, and what PATH gives goes to the client. The next call on D goes on with the same PATH. Once the input has ended, what came is written to PATH for ten seconds at most.\n\nPATH is a FIFO, a device, or a terminal that is set up so: stty -F PATH raw -echo min 0 time 1. It is opened before the client is served. A FIFO waits there until its other ends are open.\n\nExample: socat pty,raw,echo=0,link=/tmp/modem EXEC:'modemctl sim'\n\nExample with data, where /tmp/peer is the other end of calls:\n  socat pty,raw,echo=0,link=/tmp/net pty,raw,echo=0,link=/tmp/peer &\n  sleep 1; stty -F /tmp/net raw -echo min 0 time 1\n  socat pty,raw,echo=0,link=/tmp/modem EXEC:'modemctl sim --data 2=/tmp/net'\n\nExit status: 0 the input has ended; 1 a fault; 2 bad words, or a bad line of the script or the answers.\ndocs/MODEM.md has the commands that it knows, and the files of --script and --answers; docs/TRY.md drives it.";

/// The help of the option `--data` of `sim`.
pub const SIM_DATA: &str =
    "Calls on connection D, 1 to 61, carry the octets of PATH, a FIFO, a device or a terminal; may be given again, 8 times in all";

/// Behind the help of `drive`.
pub const DRIVE: &str =
    "Set the terminal up first: stty -F DEVICE raw -echo min 0 time 1 -crtscts clocal -hupcl\n\nEach line of the input is a connection from 1 to 61, a blank and a command.\n\nWith --data D=PATH the octets of connection D go to and from the terminal PATH, set up in the same way. They do so from the opening of D on; with --arm behind the CONNECT line that answers a command on D, such as ATD*99#. Without --arm give no command on D. The drive ends with its input: keep that open.\n\nWith --text D=PATH the octets of the file PATH leave on D behind the next prompt there, as AT+CMGS gives one: a text and its end, 1A. All else on D are lines, as ever.\n\nAn interrupt can't be caught: the modem then stays in the multiplexer. The next drive begins with a CLD frame if nothing answers it.\n\nExample: printf '1 AT+CSQ\\n' | modemctl drive /dev/ttyUSB0\n\nExit status: 0 all is done; 1 a fault, named on standard error; 2 bad words, a bad line, or a bad file of --dialect.\ndocs/modemctl.1 has what it does with the terminal and the modem, docs/FORMATS.md its output.";

/// The help of the option `--data` of `drive`.
pub const DRIVE_DATA: &str =
    "Connection D, 1 to 61, carries the data of the terminal PATH; may be given again, 8 times in all";

/// Behind the help of `show`.
pub const SHOW: &str =
    "Where standard error is a terminal, it tells there each 4 MiB that it read of a capture.\n\nExample: modemctl show --strict capture.pcap\n\nExit status: 0 all is shown; 1 a fault; 2 bad words, or no capture; 3 there is a complaint, where --strict is given.\ndocs/FORMATS.md has the lines, under \"show\".";
